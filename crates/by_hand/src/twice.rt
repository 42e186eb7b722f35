// One command at a time, on a unit built by hand that holds a device, a collection and a pair twice: which record counts, what is stored, and
// what a drop leaves.
use model::{
    CollectionId, Command, EventId, GicVcpuId, ItsCollection, ItsDevice, ItsDeviceId, ItsState,
    LpiId, Translation,
};
use showing::guest::fresh;
use showing::show::{Sheet, ac, cl, dv, ex, pr};
use text::Line;

fn device(bits: u8) -> ItsDevice {
    ItsDevice {
        device: ItsDeviceId(5),
        event_bits: bits,
        used: true,
    }
}

pub(crate) fn collection(number: u16, processor: u16) -> ItsCollection {
    ItsCollection {
        collection: CollectionId(number),
        target: GicVcpuId(processor),
        used: true,
    }
}

pub(crate) fn pair(event: u32, lpi: u32, number: u16) -> Translation {
    Translation {
        device: ItsDeviceId(5),
        event: EventId(event),
        lpi: LpiId(lpi),
        collection: CollectionId(number),
        used: true,
    }
}

// Device 5 with 4 bits in record 1 and with 8 bits in record 4. Collection 2 at processor 1 in record 2 and at processor 7 in record 6, and
// collection 3 at processor 0 in record 3. Pair (5, 9) as 8300 in collection 2 in record 3 and as 8400 in collection 3 in record 7, and pair
// (5, 1) as 8500 in collection 3 in record 9.
fn twice() -> ItsState {
    let mut unit = fresh(65535);
    unit.devices[1] = device(4);
    unit.devices[4] = device(8);
    unit.collections[2] = collection(2, 1);
    unit.collections[3] = collection(3, 0);
    unit.collections[6] = collection(2, 7);
    unit.translations[3] = pair(9, 8300, 2);
    unit.translations[7] = pair(9, 8400, 3);
    unit.translations[9] = pair(1, 8500, 3);
    unit
}

// The same in the strict profile.
fn strictly(mut unit: ItsState) -> ItsState {
    unit.config.profile = 1;
    unit
}

// And without its device.
fn without_device(mut unit: ItsState) -> ItsState {
    let free = ItsDevice {
        device: ItsDeviceId(0),
        event_bits: 0,
        used: false,
    };
    unit.devices[1] = free;
    unit.devices[4] = free;
    unit
}

fn mapd(bits: u8, valid: bool) -> Command {
    Command::Mapd {
        device: ItsDeviceId(5),
        event_bits: bits,
        valid,
    }
}

fn mapc(number: u16, processor: u16, valid: bool) -> Command {
    Command::Mapc {
        collection: CollectionId(number),
        target: GicVcpuId(processor),
        valid,
    }
}

fn mapti(event: u32, lpi: u32, number: u16) -> Command {
    Command::Mapti {
        device: ItsDeviceId(5),
        event: EventId(event),
        lpi: LpiId(lpi),
        collection: CollectionId(number),
    }
}

fn movi(number: u16) -> Command {
    Command::Movi {
        device: ItsDeviceId(5),
        event: EventId(9),
        collection: CollectionId(number),
    }
}

fn int() -> Command {
    Command::Int {
        device: ItsDeviceId(5),
        event: EventId(9),
    }
}

fn clear() -> Command {
    Command::Clear {
        device: ItsDeviceId(5),
        event: EventId(9),
    }
}

fn discard() -> Command {
    Command::Discard {
        device: ItsDeviceId(5),
        event: EventId(9),
    }
}

// The line of what a command came to is its action, or the number of its refusal, which is 0 where it has none.
fn executes<const N: usize>(
    sheet: &mut Sheet,
    what: &str,
    unit: ItsState,
    x: Command,
    expected: Line<N>,
) -> ItsState {
    let applied = command::execute(unit, x);
    match applied.executed {
        Err(why) => sheet.show(what, ex(answers::refusal_number(why)), expected),
        Ok(None) => sheet.show(what, ex(0), expected),
        Ok(Some(action)) => sheet.show(what, text::lines::of_action(action), expected),
    }
    applied.unit
}

fn shows_device(sheet: &mut Sheet, what: &str, unit: ItsState, at: usize, expected: Line<3>) {
    let r = tables::at(&unit.devices, at);
    let came = dv(
        u64::from(r.used),
        u64::from(r.device.0),
        u64::from(r.event_bits),
    );
    sheet.show(what, came, expected);
}

fn shows_collection(sheet: &mut Sheet, what: &str, unit: ItsState, at: usize, expected: Line<3>) {
    let r = tables::at(&unit.collections, at);
    let came = cl(
        u64::from(r.used),
        u64::from(r.collection.0),
        u64::from(r.target.0),
    );
    sheet.show(what, came, expected);
}

fn shows_pair(sheet: &mut Sheet, what: &str, unit: ItsState, at: usize, expected: Line<4>) {
    let r = tables::at(&unit.translations, at);
    let came = pr(
        u64::from(r.used),
        u64::from(r.event.0),
        u64::from(r.lpi.0),
        u64::from(r.collection.0),
    );
    sheet.show(what, came, expected);
}

// The three records of pairs that the unit above has.
fn shows_pairs(sheet: &mut Sheet, unit: ItsState, three: Line<4>, seven: Line<4>, nine: Line<4>) {
    shows_pair(sheet, "  pair in record 3", unit, 3, three);
    shows_pair(sheet, "  pair in record 7", unit, 7, seven);
    shows_pair(sheet, "  pair in record 9", unit, 9, nine);
}

pub fn commands(sheet: &mut Sheet) {
    counting(sheet);
    refused(sheet);
    stored(sheet);
    moved(sheet);
    discarded(sheet);
    device_dropped(sheet);
    collection_dropped(sheet);
    other_collection_dropped(sheet);
    mapped_in_strict(sheet);
}

fn counting(sheet: &mut Sheet) {
    sheet.heading("a unit with device 5, collection 2 and pair (5, 9) twice");
    let unit = twice();
    executes(sheet, "INT (5, 9)", unit, int(), ac(1, 8300, 1));
    executes(sheet, "CLEAR (5, 9)", unit, clear(), ac(1, 8300, 0));
    executes(sheet, "SYNC", unit, Command::Sync, ex(0));
    let left = executes(
        sheet,
        "MAPTI (5, 15), which 4 bits hold",
        unit,
        mapti(15, 8600, 3),
        ex(0),
    );
    shows_pair(sheet, "  pair in record 0", left, 0, pr(1, 15, 8600, 3));
}

fn refused(sheet: &mut Sheet) {
    let unit = twice();
    let left = executes(
        sheet,
        "MAPTI (5, 16), which 8 bits would hold",
        unit,
        mapti(16, 8600, 3),
        ex(23),
    );
    shows_pair(sheet, "  pair in record 0", left, 0, pr(0, 0, 0, 0));
    let stays = executes(
        sheet,
        "MOVI (5, 9) to collection 30",
        unit,
        movi(30),
        ex(24),
    );
    shows_pairs(
        sheet,
        stays,
        pr(1, 9, 8300, 2),
        pr(1, 9, 8400, 3),
        pr(1, 1, 8500, 3),
    );
}

fn stored(sheet: &mut Sheet) {
    let unit = twice();
    let bits = executes(sheet, "MAPD 5 with 2 bits", unit, mapd(2, true), ex(0));
    shows_device(sheet, "  device in record 1", bits, 1, dv(1, 5, 2));
    shows_device(sheet, "  device in record 4", bits, 4, dv(1, 5, 8));
    let target = executes(
        sheet,
        "MAPC 2 to processor 0",
        unit,
        mapc(2, 0, true),
        ex(0),
    );
    shows_collection(sheet, "  collection in record 2", target, 2, cl(1, 2, 0));
    shows_collection(sheet, "  collection in record 6", target, 6, cl(1, 2, 7));
    let lpi = executes(
        sheet,
        "MAPTI (5, 9) as 8700 in collection 3",
        unit,
        mapti(9, 8700, 3),
        ex(0),
    );
    shows_pairs(
        sheet,
        lpi,
        pr(1, 9, 8700, 3),
        pr(1, 9, 8400, 3),
        pr(1, 1, 8500, 3),
    );
}

fn moved(sheet: &mut Sheet) {
    let unit = twice();
    let left = executes(sheet, "MOVI (5, 9) to collection 3", unit, movi(3), ex(0));
    shows_pairs(
        sheet,
        left,
        pr(1, 9, 8300, 3),
        pr(1, 9, 8400, 3),
        pr(1, 1, 8500, 3),
    );
    executes(sheet, "  INT (5, 9) then", left, int(), ac(0, 8300, 1));
}

fn discarded(sheet: &mut Sheet) {
    let unit = twice();
    let left = executes(sheet, "DISCARD (5, 9)", unit, discard(), ex(0));
    shows_pairs(
        sheet,
        left,
        pr(0, 0, 0, 0),
        pr(0, 0, 0, 0),
        pr(1, 1, 8500, 3),
    );
    executes(sheet, "  INT (5, 9) then", left, int(), ex(8));
    executes(sheet, "  DISCARD (5, 9) then", left, discard(), ex(25));
}

fn device_dropped(sheet: &mut Sheet) {
    let unit = twice();
    let left = executes(sheet, "MAPD 5, V=0", unit, mapd(1, false), ex(0));
    shows_device(sheet, "  device in record 1", left, 1, dv(0, 0, 0));
    shows_device(sheet, "  device in record 4", left, 4, dv(0, 0, 0));
    shows_pairs(sheet, left, pr(0, 0, 0, 0), pr(0, 0, 0, 0), pr(0, 0, 0, 0));
}

// The pair (5, 9) is in collection 2, as the record that counts says: it goes with that collection, both records of it.
fn collection_dropped(sheet: &mut Sheet) {
    let unit = twice();
    let left = executes(sheet, "MAPC 2, V=0", unit, mapc(2, 0, false), ex(0));
    shows_collection(sheet, "  collection in record 2", left, 2, cl(0, 0, 0));
    shows_collection(sheet, "  collection in record 3", left, 3, cl(1, 3, 0));
    shows_collection(sheet, "  collection in record 6", left, 6, cl(0, 0, 0));
    shows_pairs(
        sheet,
        left,
        pr(0, 0, 0, 0),
        pr(0, 0, 0, 0),
        pr(1, 1, 8500, 3),
    );
}

// And stays where collection 3 goes, which only its second record names.
fn other_collection_dropped(sheet: &mut Sheet) {
    let unit = twice();
    let left = executes(sheet, "MAPC 3, V=0", unit, mapc(3, 0, false), ex(0));
    shows_collection(sheet, "  collection in record 2", left, 2, cl(1, 2, 1));
    shows_collection(sheet, "  collection in record 3", left, 3, cl(0, 0, 0));
    shows_collection(sheet, "  collection in record 6", left, 6, cl(1, 2, 7));
    shows_pairs(
        sheet,
        left,
        pr(1, 9, 8300, 2),
        pr(1, 9, 8400, 3),
        pr(0, 0, 0, 0),
    );
}

// In strict a valid MAPD of a mapped device drops every record of its pairs, and then stores. Of a device that is not mapped it only stores.
fn mapped_in_strict(sheet: &mut Sheet) {
    let unit = strictly(twice());
    let again = executes(
        sheet,
        "in strict, MAPD 5 with 2 bits",
        unit,
        mapd(2, true),
        ex(0),
    );
    shows_device(sheet, "  device in record 1", again, 1, dv(1, 5, 2));
    shows_device(sheet, "  device in record 4", again, 4, dv(1, 5, 8));
    shows_pairs(sheet, again, pr(0, 0, 0, 0), pr(0, 0, 0, 0), pr(0, 0, 0, 0));
    let bare = without_device(unit);
    let first = executes(
        sheet,
        "in strict, MAPD 5 where it is not mapped",
        bare,
        mapd(2, true),
        ex(0),
    );
    shows_device(sheet, "  device in record 0", first, 0, dv(1, 5, 2));
    shows_pairs(
        sheet,
        first,
        pr(1, 9, 8300, 2),
        pr(1, 9, 8400, 3),
        pr(1, 1, 8500, 3),
    );
}
