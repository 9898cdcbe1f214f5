// The order of a rule's items, by the rules' own rows.
ghost use Rattle.std.specs.Prelude.{◌≡◌};
ghost use Rattle.item_texts.specs.Joints as joints;
ghost use Rattle.sheet_texts.specs.Items as items;

use crate::{Joint, Sort};
use items::Kind;
use records::Item;

// The sort of an item.
pub fn sort_of(a: Item) -> Sort
    ensures { joints.number_of result ≡ items.sort a }
{
    match a {
        Item::Years(_) => Sort::Years,
        Item::Months(_) | Item::Dates(_) => Sort::MonthDays,
        Item::Weeks(_) => Sort::Weeks,
        Item::Weekdays(_) => Sort::Weekdays,
        Item::Holidays(_) => Sort::Holidays,
        Item::Times(_) => Sort::Times,
    }
}

// An item of a sort after one of a kind.
#[tactic(auto, unfolding(crate::specs::Joints::joint_of, rules::specs::Rows::listed, rules::specs::Rows::following, rules::specs::Rows::is_wide, sheet_texts::specs::Items::has, sheet_texts::specs::Items::kind_in))]
pub fn joint_of(k: Kind, x: Sort) -> Option<Joint>
    ensures { result ≡ joints.joint_of k (joints.number_of x) }
{
    match (x, k) {
        (Sort::Years, Kind::Years) => Some(Joint::Comma(Kind::Years)),
        (Sort::MonthDays, Kind::Years) => Some(Joint::Blank(Kind::MonthDays)),
        (Sort::MonthDays, Kind::MonthDays) => Some(Joint::Comma(Kind::MonthDays)),
        (Sort::Weeks, Kind::Years | Kind::MonthDays) => Some(Joint::Blank(Kind::Weeks)),
        (Sort::Weeks, Kind::Weeks | Kind::WeekNumbers) => Some(Joint::Comma(Kind::WeekNumbers)),
        (Sort::Weekdays, Kind::Years | Kind::MonthDays | Kind::Weeks | Kind::WeekNumbers) => {
            Some(Joint::Colon(Kind::Weekdays))
        }
        (Sort::Weekdays, Kind::Weekdays) => Some(Joint::Comma(Kind::Weekdays)),
        (Sort::Weekdays, Kind::LastWeekdays | Kind::Holidays) => {
            Some(Joint::Comma(Kind::LastWeekdays))
        }
        (Sort::Holidays, Kind::Years | Kind::MonthDays | Kind::Weeks | Kind::WeekNumbers) => {
            Some(Joint::Colon(Kind::Holidays))
        }
        (Sort::Holidays, Kind::Holidays) => Some(Joint::Comma(Kind::Holidays)),
        (Sort::Holidays, Kind::Weekdays | Kind::LastHolidays) => {
            Some(Joint::Comma(Kind::LastHolidays))
        }
        (Sort::Times, Kind::Years | Kind::MonthDays | Kind::Weeks | Kind::WeekNumbers) => {
            Some(Joint::Colon(Kind::Times))
        }
        (Sort::Times, Kind::Times) => Some(Joint::Comma(Kind::Times)),
        (Sort::Times, _) => Some(Joint::Blank(Kind::Times)),
        _ => None,
    }
}
