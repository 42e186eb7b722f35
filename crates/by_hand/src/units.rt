// What no trace reaches: units built by hand, which configuration and commands never make, and the row after a refused write.
use crate::twice::{collection, pair};
use model::{ItsConfig, ItsState};
use showing::guest::{
    CREADR, CTLR, CWRITER, config, example, fresh, put_command, put_example, set, write,
};
use showing::show::{Sheet, ac, cf, rd, tr, wr};
use text::Line;

// A configuration outside the sizes: configure refuses it, and a unit that holds it all the same is refused by every call.
fn unsound(sheet: &mut Sheet, what: &str, wrong: ItsConfig) {
    let configured = its::configure(wrong);
    sheet.show(
        what,
        text::lines::of_configuration(configured.verdict),
        cf(1),
    );
    sheet.heading("the unit that this gives");
    refused_by_all(sheet, configured.unit);
    sheet.heading("a unit that holds it");
    let mut unit = fresh(65535);
    unit.config = wrong;
    refused_by_all(sheet, unit);
}

fn refused_by_all(sheet: &mut Sheet, unit: ItsState) {
    let page = [5u8; 4096];
    sheet.reads("  read", unit, CREADR, 8, rd(1, 0));
    sheet.writes("  write", unit, &page, CWRITER, 0, wr(1, 0, 0, 0, 0));
    sheet.translates("  translation", unit, 5, 9, tr(1, 0, 0));
}

pub fn configurations(sheet: &mut Sheet) {
    limits(sheet);
    processors(sheet);
}

fn limits(sheet: &mut Sheet) {
    unsound(sheet, "limit 8191", config(8191));
    unsound(sheet, "limit 16777216", config(16777216));
    let mut none = config(65535);
    none.command_budget = 0;
    unsound(sheet, "budget 0", none);
    let mut many = config(65535);
    many.command_budget = 1025;
    unsound(sheet, "budget 1025", many);
    let mut small = config(65535);
    small.frame_size = 4096;
    unsound(sheet, "frame 4096", small);
    let mut third = config(65535);
    third.profile = 2;
    unsound(sheet, "profile 2", third);
}

fn processors(sheet: &mut Sheet) {
    let mut none = config(65535);
    none.processor_count = 0;
    unsound(sheet, "no processor", none);
    let mut many = config(65535);
    many.processor_count = 17;
    unsound(sheet, "17 processors", many);
    let mut twice = config(65535);
    twice.processor_count = 3;
    unsound(sheet, "processor 0 twice", twice);
}

// A unit with these three registers.
fn ring(cbaser: u64, creadr: u64, cwriter: u64) -> ItsState {
    let mut unit = fresh(65535);
    unit.registers.cbaser = cbaser;
    unit.registers.creadr = creadr;
    unit.registers.cwriter = cwriter;
    unit
}

fn unsound_ring(sheet: &mut Sheet, what: &str, unit: ItsState) {
    sheet.heading(what);
    refused_by_all(sheet, unit);
}

pub fn rings(sheet: &mut Sheet) {
    sheet.reads("a sound ring", ring(0x1000, 32, 64), CREADR, 8, rd(0, 32));
    unsound_ring(sheet, "CBASER zero, reader 32", ring(0, 32, 0));
    unsound_ring(sheet, "CBASER zero, writer 32", ring(0, 0, 32));
    unsound_ring(
        sheet,
        "a base of zero under bit 63",
        ring(0x8000_0000_0000_0000, 0, 0),
    );
    unsound_ring(sheet, "reader 16", ring(0x1000, 16, 32));
    unsound_ring(sheet, "writer 48", ring(0x1000, 0, 48));
    unsound_ring(sheet, "reader 4096 of one page", ring(0x1000, 4096, 0));
    unsound_ring(sheet, "writer 4096 of one page", ring(0x1000, 0, 4096));
}

// Stalled, set by hand: base does not look at it, and in strict Retry clears it where no queue can run. The window holds no command, so that a queue which
// runs is refused with 6.
fn set_stalled(profile: u32, cbaser: u64) -> ItsState {
    let mut unit = ring(cbaser, 0, 0);
    unit.config.profile = profile;
    unit.registers.stalled = true;
    unit.registers.enabled = true;
    unit
}

pub fn stalled(sheet: &mut Sheet) {
    let page = [5u8; 4096];
    sheet.heading("base, stalled");
    let base = set_stalled(0, 0x8000_0000_5000_0000);
    sheet.reads("  CREADR", base, CREADR, 8, rd(0, 0));
    let ran = sheet.writes("  CWRITER", base, &page, CWRITER, 32, wr(6, 0, 0, 0, 0));
    sheet.reads("  CREADR", ran, CREADR, 8, rd(0, 0));
    sheet.writes(
        "  CWRITER with bit 0",
        base,
        &page,
        CWRITER,
        33,
        wr(7, 0, 33, 0, 0),
    );
    sheet.heading("strict, stalled");
    let strict = set_stalled(1, 0x8000_0000_5000_0000);
    sheet.reads("  CREADR", strict, CREADR, 8, rd(0, 1));
    let waits = sheet.writes("  CWRITER", strict, &page, CWRITER, 32, wr(0, 0, 0, 0, 0));
    let again = sheet.writes(
        "  CWRITER with Retry",
        waits,
        &page,
        CWRITER,
        33,
        wr(6, 0, 0, 0, 0),
    );
    sheet.reads("  CREADR", again, CREADR, 8, rd(0, 1));
    sheet.heading("strict, stalled, bit 63 of CBASER clear");
    let held = set_stalled(1, 0x5000_0000);
    let let_go = sheet.writes(
        "  CWRITER with Retry",
        held,
        &page,
        CWRITER,
        33,
        wr(0, 0, 0, 0, 0),
    );
    sheet.reads("  CREADR", let_go, CREADR, 8, rd(0, 0));
    sheet.heading("strict, stalled, CBASER zero");
    let none = set_stalled(1, 0);
    sheet.reads("  CREADR", none, CREADR, 8, rd(0, 1));
    let cleared = sheet.writes(
        "  CWRITER with Retry",
        none,
        &page,
        CWRITER,
        1,
        wr(0, 0, 0, 0, 0),
    );
    sheet.reads("  CREADR", cleared, CREADR, 8, rd(0, 0));
}

// The example's unit, which holds (5, 9) in its first record, with the pair in two more: as 8300 in record 3 and as 8400 in record 7.
fn held_thrice(mut unit: ItsState) -> ItsState {
    unit.translations[3] = pair(9, 8300, 2);
    unit.translations[7] = pair(9, 8400, 2);
    unit
}

fn without_first(mut unit: ItsState) -> ItsState {
    unit.translations[0].used = false;
    unit
}

pub fn tables(sheet: &mut Sheet) {
    pair_held_more_than_once(sheet);
    collection_held_twice(sheet);
    collection_not_mapped(sheet);
}

fn pair_held_more_than_once(sheet: &mut Sheet) {
    let mut page = [5u8; 4096];
    put_example(&mut page);
    let unit = held_thrice(example(&page));
    sheet.translates(
        "a pair held in records 0, 3 and 7",
        unit,
        5,
        9,
        tr(0, 8200, 1),
    );
    let fewer = without_first(unit);
    sheet.translates("record 0 not used", fewer, 5, 9, tr(0, 8300, 1));
    put_command(&mut page, 4, 0x5_0000_000f, 9, 0);
    let left = sheet.writes(
        "DISCARD of it",
        fewer,
        &page,
        CWRITER,
        160,
        wr(0, 0, 0, 1, 0),
    );
    sheet.translates("every record of it is free", left, 5, 9, tr(8, 0, 0));
}

fn collection_held_twice(sheet: &mut Sheet) {
    let mut page = [5u8; 4096];
    put_example(&mut page);
    let mut unit = example(&page);
    unit.collections[9] = collection(2, 0);
    sheet.translates(
        "collection 2 held in records 0 and 9",
        unit,
        5,
        9,
        tr(0, 8200, 1),
    );
    put_command(&mut page, 4, 0x9, 0, 2);
    let left = set(unit, &page, CWRITER, 8, 160);
    put_command(&mut page, 5, 0xd, 0, 2);
    sheet.writes(
        "dropped, both are free: INVALL of it",
        left,
        &page,
        CWRITER,
        192,
        wr(24, 13, 160, 0, 0),
    );
}

// The drop of a collection takes its pairs along, so commands never leave a pair without its collection.
fn collection_not_mapped(sheet: &mut Sheet) {
    let mut page = [5u8; 4096];
    put_example(&mut page);
    let mut unit = example(&page);
    unit.translations[0] = pair(9, 8200, 30);
    sheet.translates(
        "a pair whose collection is not mapped",
        unit,
        5,
        9,
        tr(8, 0, 0),
    );
    put_command(&mut page, 4, 0x5_0000_0003, 9, 0);
    sheet.writes("INT of it", unit, &page, CWRITER, 160, wr(8, 3, 128, 0, 0));
    put_command(&mut page, 4, 0x5_0000_000c, 9, 0);
    sheet.writes("INV of it", unit, &page, CWRITER, 160, wr(0, 0, 0, 1, 0));
}

// A refused write hands over the actions of the commands before the refused one, and leaves the other records of its row; a later write that tries the
// refused command again hands over nothing and leaves its whole row.
pub fn row(sheet: &mut Sheet) {
    refused_write(sheet);
    short_row(sheet);
}

fn refused_write(sheet: &mut Sheet) {
    let mut page = [5u8; 4096];
    put_example(&mut page);
    put_command(&mut page, 4, 0x5_0000_0003, 9, 0);
    put_command(&mut page, 5, 0x5_0000_0004, 9, 0);
    put_command(&mut page, 6, 0xe, 0, 0);
    let unit = example(&page);
    let w = write(unit, &page, 64, CWRITER, 8, 224);
    sheet.show(
        "INT, CLEAR and then opcode 0E",
        text::lines::of_write(w.answer),
        wr(20, 14, 192, 2, 2),
    );
    sheet.show(
        "the row's record 0",
        text::lines::of_action(w.row[0]),
        ac(1, 8200, 1),
    );
    sheet.show("record 1", text::lines::of_action(w.row[1]), ac(1, 8200, 0));
    sheet.show(
        "record 2, as it was lent",
        text::lines::of_action(w.row[2]),
        ac(0, 0, 0),
    );
    tried_again(sheet, w.unit, &page);
}

fn tried_again(sheet: &mut Sheet, unit: ItsState, page: &[u8; 4096]) {
    let w = write(unit, page, 64, CTLR, 4, 1);
    sheet.show(
        "opcode 0E tried again",
        text::lines::of_write(w.answer),
        wr(20, 14, 192, 0, 0),
    );
    sheet.show(
        "the row's record 0, as it was lent",
        text::lines::of_action(w.row[0]),
        ac(0, 0, 0),
    );
}

// A write with a row of so many records.
fn with_room(
    sheet: &mut Sheet,
    what: &str,
    unit: ItsState,
    room: usize,
    width: u8,
    expected: Line<5>,
) -> ItsState {
    let mut page = [5u8; 4096];
    put_example(&mut page);
    put_command(&mut page, 4, 0x5_0000_0003, 9, 0);
    let w = write(unit, &page, room, CWRITER, width, 160);
    sheet.show(what, text::lines::of_write(w.answer), expected);
    w.unit
}

// The budget is 64. 1 comes before 10, and 10 before 2.
fn short_row(sheet: &mut Sheet) {
    let mut page = [5u8; 4096];
    put_example(&mut page);
    let unit = example(&page);
    let left = with_room(
        sheet,
        "INT with a row of 63 records",
        unit,
        63,
        8,
        wr(10, 0, 0, 0, 0),
    );
    sheet.reads("CWRITER is as it was", left, CWRITER, 8, rd(0, 128));
    with_room(
        sheet,
        "with a row of no record",
        unit,
        0,
        8,
        wr(10, 0, 0, 0, 0),
    );
    with_room(
        sheet,
        "with a row of 63 records, width 3",
        unit,
        63,
        3,
        wr(10, 0, 0, 0, 0),
    );
    with_room(
        sheet,
        "with a row of 64 records, width 3",
        unit,
        64,
        3,
        wr(2, 0, 0, 0, 0),
    );
    with_room(
        sheet,
        "with a row of 64 records",
        unit,
        64,
        8,
        wr(0, 0, 0, 1, 1),
    );
    with_room(
        sheet,
        "an unsound ring and a row of 63 records",
        ring(0x1000, 16, 32),
        63,
        8,
        wr(1, 0, 0, 0, 0),
    );
}
