// The library for C: what crate c_calls answers, under the names of include/lorukinde.h. A crate is a library or a static library: demands speaks of that one, C links this one.
#![tactic(auto)]

ghost use Rattle.std.specs.Prelude.{[], ◌∷◌, ◌≡◌};
ghost use Rattle.c_calls.specs.Calls.{sheet_call, sheet_call_in, house_call, part_call, part_call_in, house_part_call, note_call, feed_call};
ghost use Rattle.c_calls.specs.RuleCalls as rule_calls;
ghost use Rattle.c_calls.specs.Tallies.{add_call, join_call};

// Reads a sheet: the number is returned, place, records and warnings are stored.
#[unsafe(no_mangle)]
pub extern "C" fn lorukinde_read_sheet(
    sheet: &[u8],
    table: &mut [u8],
    place: &mut u32,
    records: &mut u32,
    warnings: &mut u32,
) -> u32
    ensures { (result ∷ place.new ∷ records.new ∷ warnings.new ∷ [], table.new) ≡ sheet_call sheet.now table.old }
{
    c_calls::lorukinde_read_sheet(sheet, table, place, records, warnings)
}

// Reads a sheet in an edition, named by its number.
#[unsafe(no_mangle)]
pub extern "C" fn lorukinde_read_sheet_in(
    edition: u32,
    sheet: &[u8],
    table: &mut [u8],
    place: &mut u32,
    records: &mut u32,
    warnings: &mut u32,
) -> u32
    ensures { (result ∷ place.new ∷ records.new ∷ warnings.new ∷ [], table.new) ≡ sheet_call_in edition sheet.now table.old }
{
    c_calls::lorukinde_read_sheet_in(edition, sheet, table, place, records, warnings)
}

// Reads a house sheet.
#[unsafe(no_mangle)]
pub extern "C" fn lorukinde_read_house_sheet(
    sheet: &[u8],
    table: &mut [u8],
    place: &mut u32,
    records: &mut u32,
    warnings: &mut u32,
) -> u32
    ensures { (result ∷ place.new ∷ records.new ∷ warnings.new ∷ [], table.new) ≡ house_call sheet.now table.old }
{
    c_calls::lorukinde_read_house_sheet(sheet, table, place, records, warnings)
}

// Reads the part that begins at a place: also the next part's place is stored, and 1 if this was the last, else 0.
#[unsafe(no_mangle)]
pub extern "C" fn lorukinde_read_part(
    sheet: &[u8],
    begin: usize,
    table: &mut [u8],
    place: &mut u32,
    records: &mut u32,
    warnings: &mut u32,
    next: &mut u32,
    last: &mut u32,
) -> u32
    ensures { (result ∷ place.new ∷ records.new ∷ warnings.new ∷ next.new ∷ last.new ∷ [], table.new)
        ≡ part_call sheet.now begin table.old }
{
    c_calls::lorukinde_read_part(sheet, begin, table, place, records, warnings, next, last)
}

// Reads the part that begins at a place in an edition, named by its number.
#[unsafe(no_mangle)]
pub extern "C" fn lorukinde_read_part_in(
    edition: u32,
    sheet: &[u8],
    begin: usize,
    table: &mut [u8],
    place: &mut u32,
    records: &mut u32,
    warnings: &mut u32,
    next: &mut u32,
    last: &mut u32,
) -> u32
    ensures { (result ∷ place.new ∷ records.new ∷ warnings.new ∷ next.new ∷ last.new ∷ [], table.new)
        ≡ part_call_in edition sheet.now begin table.old }
{
    c_calls::lorukinde_read_part_in(
        edition, sheet, begin, table, place, records, warnings, next, last,
    )
}

// Reads the part of a house sheet that begins at a place.
#[unsafe(no_mangle)]
pub extern "C" fn lorukinde_read_house_part(
    sheet: &[u8],
    begin: usize,
    table: &mut [u8],
    place: &mut u32,
    records: &mut u32,
    warnings: &mut u32,
    next: &mut u32,
    last: &mut u32,
) -> u32
    ensures { (result ∷ place.new ∷ records.new ∷ warnings.new ∷ next.new ∷ last.new ∷ [], table.new)
        ≡ house_part_call sheet.now begin table.old }
{
    c_calls::lorukinde_read_house_part(sheet, begin, table, place, records, warnings, next, last)
}

// The note shown for a rule: 1 where it is a part of the sheet, 0 of the caller's standing note; from where and to where is stored.
#[unsafe(no_mangle)]
pub extern "C" fn lorukinde_note(
    sheet_len: usize,
    note_len: usize,
    start: i32,
    length: i32,
    from: &mut usize,
    to: &mut usize,
) -> u32
    ensures { (result ∷ from.new ∷ to.new ∷ []) ≡ note_call sheet_len note_len start length }
{
    c_calls::lorukinde_note(sheet_len, note_len, start, length, from, to)
}

// Reads a feed: the number is returned, lines and records are stored.
#[unsafe(no_mangle)]
pub extern "C" fn lorukinde_read_feed(
    feed: &[u8],
    answers: &mut [u8],
    table: &mut [u8],
    lines: &mut usize,
    records: &mut usize,
) -> u32
    ensures { (result ∷ lines.new ∷ records.new ∷ [], (answers.new, table.new)) ≡ feed_call feed.now answers.old table.old }
{
    c_calls::lorukinde_read_feed(feed, answers, table, lines, records)
}

// A tally takes in an answer and its records: the number is returned.
#[unsafe(no_mangle)]
pub extern "C" fn lorukinde_tally_add(
    tally: &mut [u8],
    number: u32,
    place: u32,
    records: u32,
    warnings: u32,
    table: &[u8],
) -> u32
    ensures { (result, tally.new) ≡ add_call tally.old number place records warnings table.now }
{
    c_calls::lorukinde_tally_add(tally, number, place, records, warnings, table)
}

// Another tally is added to a tally: the number is returned.
#[unsafe(no_mangle)]
pub extern "C" fn lorukinde_tally_join(tally: &mut [u8], other: &[u8]) -> u32
    ensures { (result, tally.new) ≡ join_call tally.old other.now }
{
    c_calls::lorukinde_tally_join(tally, other)
}

// Runs a rule over recorded days: the number is returned, an answer for each day is written.
#[unsafe(no_mangle)]
pub extern "C" fn lorukinde_rule_days(
    table: &[u8],
    rule: usize,
    days: &[u8],
    answers: &mut [u8],
) -> u32
    ensures { (result, answers.new) ≡ rule_calls.days_call table.now rule days.now answers.old }
{
    c_calls::lorukinde_rule_days(table, rule, days, answers)
}

// Builds the list of entries of a table's rules: the number is returned, an entry for each rule is written.
#[unsafe(no_mangle)]
pub extern "C" fn lorukinde_rule_months(table: &[u8], entries: &mut [u8]) -> u32
    ensures { (result, entries.new) ≡ rule_calls.months_call table.now entries.old }
{
    c_calls::lorukinde_rule_months(table, entries)
}

// Renews a list of entries after a part of its sheet was exchanged: the number is returned.
#[unsafe(no_mangle)]
pub extern "C" fn lorukinde_renew_months(
    entries: &mut [u8],
    rules: usize,
    first: usize,
    old_records: usize,
    table: &[u8],
) -> u32
    ensures { (result, entries.new) ≡ rule_calls.renew_call entries.old rules first old_records table.now }
{
    c_calls::lorukinde_renew_months(entries, rules, first, old_records, table)
}
