// Document 01, "Corners to hit".
use showing::guest::{
    BASER, CBASER, CREADR, CWRITER, TYPER, enabled, example, fresh, put_command, put_example, set,
    write,
};
use showing::show::{Sheet, ac, rd, tr, wr};
use text::Line;

pub fn registers(sheet: &mut Sheet) {
    sheet.reads(
        "P1 TYPER, limit 65535",
        fresh(65535),
        TYPER,
        8,
        rd(0, 0x1ef71),
    );
    sheet.reads(
        "P2 TYPER, limit 8192",
        fresh(8192),
        TYPER,
        8,
        rd(0, 0x1ed71),
    );
    let page = [5u8; 4096];
    let unit = set(fresh(65535), &page, BASER, 8, 0xffff_ffff_ffff_ffff);
    sheet.reads(
        "P8 all ones into BASER 0",
        unit,
        BASER,
        8,
        rd(0, 0xf9e7_ffff_ffff_ffff),
    );
}

pub fn rings(sheet: &mut Sheet) {
    let page = [5u8; 4096];
    let large = set(fresh(65535), &page, CBASER, 8, 0x10ff);
    let left = sheet.writes(
        "P3 256 pages, CWRITER 0xFFFE0",
        large,
        &page,
        CWRITER,
        0xfffe0,
        wr(0, 0, 0, 0, 0),
    );
    sheet.reads("P3 CWRITER then", left, CWRITER, 8, rd(0, 0xfffe0));
    sheet.writes(
        "P4 CBASER 0x8000000000000000",
        fresh(65535),
        &page,
        CBASER,
        0x8000_0000_0000_0000,
        wr(4, 0, 0, 0, 0),
    );
    one_page(sheet);
    sheet.writes(
        "P6 fresh, CWRITER 32",
        fresh(65535),
        &page,
        CWRITER,
        32,
        wr(7, 0, 32, 0, 0),
    );
    sheet.writes(
        "P6 fresh, CWRITER 0",
        fresh(65535),
        &page,
        CWRITER,
        0,
        wr(0, 0, 0, 0, 0),
    );
    two_wait(sheet);
}

fn one_page(sheet: &mut Sheet) {
    let page = [5u8; 4096];
    let one = set(fresh(65535), &page, CBASER, 8, 0x1000);
    sheet.writes(
        "P5 one page, CWRITER 0xFE0",
        one,
        &page,
        CWRITER,
        0xfe0,
        wr(0, 0, 0, 0, 0),
    );
    sheet.writes(
        "P5 one page, CWRITER 0x1000",
        one,
        &page,
        CWRITER,
        0x1000,
        wr(7, 0, 4096, 0, 0),
    );
    let left = sheet.writes(
        "P5 one page, CWRITER 0x100020",
        one,
        &page,
        CWRITER,
        0x10_0020,
        wr(0, 0, 0, 0, 0),
    );
    sheet.reads("P5 CWRITER then", left, CWRITER, 8, rd(0, 0x20));
}

// The ring is full of SYNC. Two writes of at most 64 commands bring the reader to 4064.
fn two_wait(sheet: &mut Sheet) {
    let page = [5u8; 4096];
    let unit = set(enabled(&page, 65535), &page, CWRITER, 8, 2048);
    let last = set(unit, &page, CWRITER, 8, 4064);
    sheet.reads("P7 one page, CREADR", last, CREADR, 8, rd(0, 4064));
    let left = sheet.writes(
        "P7 writer 32: two wait and are done",
        last,
        &page,
        CWRITER,
        32,
        wr(0, 0, 0, 2, 0),
    );
    sheet.reads("P7 CREADR then", left, CREADR, 8, rd(0, 32));
}

pub fn mappings(sheet: &mut Sheet) {
    four_bits(sheet);
    all_bits(sheet);
    limits(sheet);
    second_mapd(sheet);
}

fn four_bits(sheet: &mut Sheet) {
    let mut page = [5u8; 4096];
    put_example(&mut page);
    let unit = example(&page);
    put_command(&mut page, 4, 0x5_0000_000a, 0x2009_0000_000f, 2);
    let left = sheet.writes(
        "P9 4 bits, MAPTI of event 15",
        unit,
        &page,
        CWRITER,
        160,
        wr(0, 0, 0, 1, 0),
    );
    sheet.translates("P9 event 15", left, 5, 15, tr(0, 8201, 1));
    put_command(&mut page, 4, 0x5_0000_000a, 0x2009_0000_0010, 2);
    sheet.writes(
        "P9 4 bits, MAPTI of event 16",
        unit,
        &page,
        CWRITER,
        160,
        wr(23, 10, 128, 0, 0),
    );
}

fn all_bits(sheet: &mut Sheet) {
    let mut page = [5u8; 4096];
    put_example(&mut page);
    put_command(&mut page, 0, 0x5_0000_0008, 31, 0x8000_0000_0000_0000);
    let unit = example(&page);
    put_command(&mut page, 4, 0x5_0000_000a, 0x2009_ffff_ffff, 2);
    let left = sheet.writes(
        "P9 32 bits, MAPTI of event 0xFFFFFFFF",
        unit,
        &page,
        CWRITER,
        160,
        wr(0, 0, 0, 1, 0),
    );
    sheet.translates("P9 event 0xFFFFFFFF", left, 5, 0xffff_ffff, tr(0, 8201, 1));
}

fn lpi(sheet: &mut Sheet, what: &str, w1: u64, expected: Line<5>) {
    let mut page = [5u8; 4096];
    put_example(&mut page);
    let unit = example(&page);
    put_command(&mut page, 4, 0x5_0000_000a, w1, 2);
    sheet.writes(what, unit, &page, CWRITER, 160, expected);
}

fn limits(sheet: &mut Sheet) {
    let refused = wr(21, 10, 128, 0, 0);
    let taken = wr(0, 0, 0, 1, 0);
    lpi(sheet, "P10 MAPTI to LPI 8191", 0x1fff_0000_0001, refused);
    lpi(sheet, "P10 MAPTI to LPI 8192", 0x2000_0000_0001, taken);
    lpi(
        sheet,
        "P10 MAPTI to the limit, 65535",
        0xffff_0000_0001,
        taken,
    );
    lpi(
        sheet,
        "P10 MAPTI to the limit + 1",
        0x1_0000_0000_0001,
        refused,
    );
}

fn second_mapd(sheet: &mut Sheet) {
    let mut page = [5u8; 4096];
    put_example(&mut page);
    let unit = example(&page);
    put_command(&mut page, 4, 0x5_0000_0008, 0, 0x8000_0000_0000_0000);
    let left = sheet.writes(
        "P11 after the example, MAPD 5 with 1 bit",
        unit,
        &page,
        CWRITER,
        160,
        wr(0, 0, 0, 1, 0),
    );
    sheet.translates("P11 (5, 9) still", left, 5, 9, tr(0, 8200, 1));
    put_command(&mut page, 5, 0x5_0000_000a, 0x2008_0000_0009, 2);
    sheet.writes(
        "P11 a new MAPTI of it",
        left,
        &page,
        CWRITER,
        192,
        wr(23, 10, 160, 0, 0),
    );
}

pub fn queue(sheet: &mut Sheet) {
    let page = [5u8; 4096];
    let unit = enabled(&page, 65535);
    sheet.writes(
        "budget 64: 64 commands",
        unit,
        &page,
        CWRITER,
        2048,
        wr(0, 0, 0, 64, 0),
    );
    sheet.writes(
        "budget 64: 65 commands",
        unit,
        &page,
        CWRITER,
        2080,
        wr(5, 0, 0, 0, 0),
    );
    refused_after_int(sheet);
}

fn refused_after_int(sheet: &mut Sheet) {
    let mut page = [5u8; 4096];
    put_example(&mut page);
    put_command(&mut page, 4, 0x5_0000_0003, 9, 0);
    put_command(&mut page, 5, 0xe, 0, 0);
    let unit = example(&page);
    let w = write(unit, &page, 64, CWRITER, 8, 192);
    sheet.show(
        "after the example, INT (5, 9) and opcode 0E",
        text::lines::of_write(w.answer),
        wr(20, 14, 160, 1, 1),
    );
    sheet.show(
        "the INT's action, handed over all the same",
        text::lines::of_action(w.row[0]),
        ac(1, 8200, 1),
    );
}

// "Tempting and wrong", where the corners above do not show it.
pub fn tempting(sheet: &mut Sheet) {
    movi_order(sheet);
    first_name(sheet);
}

// Neither the collection nor the pair is mapped: the number tells which was tested first.
fn movi_order(sheet: &mut Sheet) {
    let mut page = [5u8; 4096];
    put_example(&mut page);
    let unit = example(&page);
    put_command(&mut page, 4, 0x5_0000_0001, 8, 3);
    sheet.writes(
        "MOVI of no pair to no collection",
        unit,
        &page,
        CWRITER,
        160,
        wr(24, 1, 128, 0, 0),
    );
}

// MAPC 3 to processor 0, MOVI (5, 9) to it, then the drop of collection 2 and that of 3.
fn first_name(sheet: &mut Sheet) {
    let mut page = [5u8; 4096];
    put_example(&mut page);
    put_command(&mut page, 4, 0x9, 0, 0x8000_0000_0000_0003);
    put_command(&mut page, 5, 0x5_0000_0001, 9, 3);
    put_command(&mut page, 6, 0x9, 0, 2);
    put_command(&mut page, 7, 0x9, 0, 3);
    let unit = example(&page);
    let first = set(unit, &page, CWRITER, 8, 224);
    sheet.translates(
        "after MOVI to 3, collection 2 dropped",
        first,
        5,
        9,
        tr(0, 8200, 0),
    );
    let second = set(first, &page, CWRITER, 8, 256);
    sheet.translates("collection 3 dropped", second, 5, 9, tr(8, 0, 0));
}
