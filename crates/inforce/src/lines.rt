// The lines of a unit: its profile, its mappings in force, then its mapped devices.
#![tactic(auto, unfolding(model::specs::Trace::line, text::specs::Laying::line_of))]

ghost use Rattle.std.specs.Prelude.{◌≡◌, [], ◌∷◌, map};
ghost use Rattle.model.specs.Choose.{if_found};
ghost use Rattle.mappings.specs.Mappings.{mappings_of, devices_of};
ghost use Rattle.text.specs.Laying.{line_of, output, lay_all};
ghost use Rattle.inforce.specs.Shown.{profile_line, profile_lines, mapping_line, device_line, unit_lines};

use mappings::Mapping;
use model::{ItsConfig, ItsDevice, ItsState};
use text::{Laid, Line};

// `PF profile`
fn of_profile(config: ItsConfig) -> Line<1>
    ensures { line_of result ≡ profile_line config }
{
    Line {
        mark: *b"PF",
        numbers: [u64::from(config.profile)],
    }
}

// `MP device event lpi collection processor`
fn of_mapping(m: Mapping) -> Line<5>
    ensures { line_of result ≡ mapping_line m }
{
    Line {
        mark: *b"MP",
        numbers: [
            u64::from(m.device.0),
            u64::from(m.event.0),
            u64::from(m.lpi.0),
            u64::from(m.collection.0),
            u64::from(m.target.0),
        ],
    }
}

// `DV device bits`
fn of_device(r: ItsDevice) -> Line<2>
    ensures { line_of result ≡ device_line r }
{
    Line {
        mark: *b"DV",
        numbers: [u64::from(r.device.0), u64::from(r.event_bits)],
    }
}

// The line of the profile, of a unit that was configured.
fn put_profile(out: &mut [u8], laid: Laid, config: ItsConfig) -> Laid
    ensures { output out.new result ≡ lay_all (output out.old laid) (profile_lines config) }
{
    if registers::sizes::sound_config(config) {
        return text::put_line(out, laid, of_profile(config));
    }
    laid
}

// The line of a mapping, if there is one.
fn put_mapping(out: &mut [u8], laid: Laid, m: Option<Mapping>) -> Laid
    ensures { output out.new result ≡ lay_all (output out.old laid) (if_found m (λ m. mapping_line m ∷ []) []) }
{
    match m {
        Some(m) => text::put_line(out, laid, of_mapping(m)),
        None => laid,
    }
}

// The line of a device, if there is one.
fn put_device(out: &mut [u8], laid: Laid, r: Option<ItsDevice>) -> Laid
    ensures { output out.new result ≡ lay_all (output out.old laid) (if_found r (λ r. device_line r ∷ []) []) }
{
    match r {
        Some(r) => text::put_line(out, laid, of_device(r)),
        None => laid,
    }
}

fn put_mappings(out: &mut [u8], laid: Laid, unit: ItsState) -> Laid
    ensures { output out.new result ≡ lay_all (output out.old laid) (map mapping_line (mappings_of unit)) }
{
    let mut next = laid;
    for i in 0..256 {
        next = put_mapping(out, next, mappings::mapping_at(unit, i));
    }
    next
}

fn put_devices(out: &mut [u8], laid: Laid, unit: ItsState) -> Laid
    ensures { output out.new result ≡ lay_all (output out.old laid) (map device_line (devices_of unit)) }
{
    let mut next = laid;
    for i in 0..32 {
        next = put_device(out, next, mappings::device_at(unit, i));
    }
    next
}

// All lines of a unit.
pub fn put_unit(out: &mut [u8], laid: Laid, unit: ItsState) -> Laid
    ensures { output out.new result ≡ lay_all (output out.old laid) (unit_lines unit) }
{
    let profiled = put_profile(out, laid, unit.config);
    let mapped = put_mappings(out, profiled, unit);
    put_devices(out, mapped, unit)
}
