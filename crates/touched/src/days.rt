// A rule run over recorded days.
ghost use Rattle.std.specs.Prelude.{◌+◌, ◌*◌, ◌/◌, ◌≤◌, true, map, ◌≡◌, length};
ghost use Rattle.lent_slots.specs.Lent.{lent};
ghost use Rattle.table_rules.specs.Numbers.{written};
ghost use Rattle.touched.specs.Days as days;
ghost use Rattle.touched.specs.Kinds as kinds;
ghost use Rattle.touched.specs.Walk.{items_left};

use crate::{Found, Items, Touch};
use almanac::{OnDay, Ymd};
use lent_slots::{Table, number_in, put_word};
use table_rules::rule_items;
use tables::table_fits;

// The bytes of a number, and of a recorded day: three numbers, its year, its month and its day of the month.
const NUMBER_BYTES: usize = 4;

const DAY_BYTES: usize = 3 * NUMBER_BYTES;

// Why a rule is not run over recorded days, with the number that C gets.
#[derive(Clone, Copy, PartialEq, Eq)]
enum DaysError {
    // The records do not fit.
    NoFit = 16,
    // An impossible day, numbers left over, or no such rule.
    NoDays = 20,
    // Fewer answers than days.
    FewAnswers = 24,
}

impl DaysError {
    // Its number.
    fn number(self) -> u32
        ensures { result ≡ days.error_number self }
    {
        self as u32
    }
}

// The day numbered i. A number that is too great for its field is taken as 0, which no day has.
#[tactic(auto, unfolding(crate::specs::Days::day_at, crate::specs::Days::up_to))]
fn day_at(b: &[u8], i: usize) -> Ymd
    requires { i * 12 + 12 ≤ length b.now }
    ensures { result ≡ days.day_at b.now i }
{
    let p = i * DAY_BYTES;
    Ymd {
        year: u16::try_from(number_in(b, p)).unwrap_or(0),
        month: u8::try_from(number_in(b, p + NUMBER_BYTES)).unwrap_or(0),
        day: u8::try_from(number_in(b, p + 2 * NUMBER_BYTES)).unwrap_or(0),
    }
}

// Whether nothing is left over and each day is one of the calendar, 1900 to 9999.
#[tactic(auto, unfolding(crate::specs::Days::days_fit))]
fn days_fit(b: &[u8]) -> bool
    ensures { result ≡ days.days_fit b.now }
{
    b.len() % DAY_BYTES == 0 && (0..b.len() / DAY_BYTES).all(|i| day_at(b, i).possible())
}

// Whether a day is touched by a rule's items: each day, where there are none.
fn rule_touch(items: Items, day: OnDay) -> Touch
    ensures { result ≡ kinds.rule_touch day (items_left items.entry) }
{
    if items.is_over() {
        return Touch::Yes;
    }
    items
        .fold(Found::begun(), |found, a| found.with(day, a))
        .ended()
}

// The answers of a rule are written, a number for each day.
#[tactic(auto, using(crate::proofs::DayLaws::days_possible, crate::proofs::DayLaws::answers_next, crate::proofs::DayLaws::answers_end))]
fn answer_days(items: Items, b: &[u8], answers: &mut [u8])
    requires b_value { days.all_possible (days.days_in b.now) ≡ true }
    requires b_in_bounds { days.day_count b.now ≤ length answers.old / 4 }
    ensures { answers.new ≡ written answers.old 0 (map (days.answer_for (items_left items.entry)) (days.days_in b.now)) }
{
    for i in 0..b.len() / DAY_BYTES {
        let t = rule_touch(items, day_at(b, i).on_day());
        put_word(answers, i * NUMBER_BYTES, u32::from(t));
    }
}

// Runs the rule numbered k of a table over recorded days, if it can be run.
#[tactic(auto, using(crate::proofs::DayLaws::fit_possible), unfolding(crate::specs::Days::rule_days, crate::specs::Days::table_answers, crate::specs::Days::rule_answers, table_rules::specs::Numbers::written))]
fn answer_rule(table: Table, k: usize, b: &[u8], answers: &mut [u8]) -> Result<(), DaysError>
    ensures { (days.number_of result, answers.new) ≡ days.rule_days (lent table.entry) k b.now answers.old }
{
    if !table_fits(table) {
        return Err(DaysError::NoFit);
    }
    let from = rule_items(table, k).ok_or(DaysError::NoDays)?;
    if !days_fit(b) {
        return Err(DaysError::NoDays);
    }
    if answers.len() / NUMBER_BYTES < b.len() / DAY_BYTES {
        return Err(DaysError::FewAnswers);
    }
    answer_days(Items::new(table, from), b, answers);
    Ok(())
}

// Runs the rule numbered k of a table over recorded days. Nothing is written unless the number is 0. It is a number, since C gets it.
pub fn rule_days(table: Table, k: usize, b: &[u8], answers: &mut [u8]) -> u32
    ensures { (result, answers.new) ≡ days.rule_days (lent table.entry) k b.now answers.old }
{
    match answer_rule(table, k, b, answers) {
        Ok(()) => 0,
        Err(e) => e.number(),
    }
}
