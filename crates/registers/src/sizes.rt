// Which configurations are accepted, and which rings are sound. The contract of each function says that its answer is that of a definition of
// the model.
ghost use Rattle.std.specs.Prelude.{◌≡◌, take, drop};
ghost use Rattle.model.specs.Choose.{is_found};
ghost use Rattle.model.specs.Table.{look};
ghost use Rattle.model.specs.Keys.{same_processor};
ghost use Rattle.model.specs.Config.{listed, none_twice, sound_config, is_queue_offset, sound_ring};

use model::{GicVcpuId, ItsConfig, ItsRegisters};

// The first `count` of the sixteen processors.
fn first(processors: &[GicVcpuId; 16], count: usize) -> &[GicVcpuId]
    ensures { result.now ≡ take count processors.now }
{
    processors.get(..count).unwrap_or(processors)
}

// Whether a processor is among the first `count` of the sixteen, from one of them on.
pub fn is_found_from(
    processors: [GicVcpuId; 16],
    count: usize,
    from: usize,
    target: GicVcpuId,
) -> bool
    ensures { result ≡ is_found (look (same_processor target) (drop from (take count processors))) }
{
    first(&processors, count)
        .get(from..)
        .unwrap_or(&[])
        .contains(&target)
}

#[tactic(auto, unfolding(model::specs::Config::listed))]
pub fn is_listed(config: ItsConfig, target: GicVcpuId) -> bool
    ensures { result ≡ listed config target }
{
    is_found_from(
        config.processors,
        usize::from(config.processor_count),
        0,
        target,
    )
}

// Whether none of the first `count` of the sixteen comes again after itself.
#[tactic(auto, using(crate::proofs::Searches::found_any))]
pub fn none_twice(processors: [GicVcpuId; 16], count: usize) -> bool
    ensures { result ≡ none_twice (take count processors) }
{
    let mut left = first(&processors, count);
    while let Some((p, others)) = left.split_first() {
        if others.contains(p) {
            return false;
        }
        left = others;
    }
    true
}

#[tactic(auto, unfolding(model::specs::Config::sound_config, model::specs::Config::sizes_in01))]
pub fn sound_config(config: ItsConfig) -> bool
    ensures { result ≡ sound_config config }
{
    (8192..=16_777_215).contains(&config.lpi_limit)
        && (1..=1024).contains(&config.command_budget)
        && matches!(config.frame_size, 65536 | 131072)
        && (1..=16).contains(&config.processor_count)
        && none_twice(config.processors, usize::from(config.processor_count))
        && config.profile <= 1
}

// Whether an offset is one into the queue: a multiple of 32 below its size.
pub fn is_queue_offset(cbaser: u64, offset: u64) -> bool
    ensures { result ≡ is_queue_offset cbaser offset }
{
    offset % 32 == 0 && offset < words::queue_size(cbaser)
}

#[tactic(auto, unfolding(model::specs::Config::sound_ring))]
pub fn sound_ring(registers: ItsRegisters) -> bool
    ensures { result ≡ sound_ring registers }
{
    let cbaser = registers.cbaser;
    if cbaser == 0 {
        return registers.creadr == 0 && registers.cwriter == 0;
    }
    words::queue_base(cbaser) != 0
        && is_queue_offset(cbaser, registers.creadr)
        && is_queue_offset(cbaser, registers.cwriter)
}
