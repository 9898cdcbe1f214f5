// The text of an item, and what stands before it.
ghost use Rattle.std.specs.Prelude.{true, ◌≡◌};
ghost use Rattle.pen.specs.Pens.{Poured};
ghost use Rattle.sheet_texts.specs.Items as items;
ghost use Rattle.item_texts.specs.Joints as joints;

use crate::Joint;
use date_texts::{dates, months, weeks, years};
use day_texts::{holidays, weekdays};
use pen::LentPen;
use records::Item;
use time_texts::span;

// An item.
fn item(p: &mut LentPen, a: Item)
    requires { items.good_item a ≡ true }
    ensures { Poured (items.item_text a) p.old p.new }
{
    match a {
        Item::Years(r) => years(p, r),
        Item::Months(r) => months(p, r),
        Item::Dates(r) => dates(p, r),
        Item::Weeks(r) => weeks(p, r),
        Item::Weekdays(r) => weekdays(p, r),
        Item::Holidays(r) => holidays(p, r),
        Item::Times(r) => span(p, r),
    }
}

// The first item of its list: weeks have their word before them.
pub fn put_first(p: &mut LentPen, a: Item)
    requires { items.good_item a ≡ true }
    ensures { Poured (items.full a) p.old p.new }
{
    if let Item::Weeks(_) = a {
        p.put_all(b"week ");
    }
    item(p, a);
}

// An item after another, if it may stand there.
pub fn put_after(p: &mut LentPen, j: Option<Joint>, a: Item)
    requires { items.good_item a ≡ true }
    ensures { Poured (joints.joined j a) p.old p.new }
{
    match j {
        Some(Joint::Comma(_)) => {
            p.put(b',');
            item(p, a);
        }
        Some(Joint::Colon(_)) => {
            p.put_all(b": ");
            put_first(p, a);
        }
        Some(Joint::Blank(_)) => {
            p.put(b' ');
            put_first(p, a);
        }
        None => {}
    }
}
