// The commands on a pair or a collection that is mapped, and where a message goes, on a unit that is lent as numbers.
#![tactic(auto, using(model::proofs::CommandLaws::searches, lent_tables::proofs::RecordsAt::lengths), unfolding(model::specs::Step::stepped, model::specs::Step::move_pair, model::specs::Step::store_translation, model::specs::Step::delivery_in, model::specs::Step::executed, model::specs::Step::actions_on, model::specs::Step::drop_pair))]

ghost use Rattle.std.specs.Prelude.{◌≡◌, if◌then◌else◌, Ok, Err, Some};
ghost use Rattle.std.specs.Result.{result_map_both};
ghost use Rattle.model.specs.declared.Command.TheVariants.{Movi, Int, Clear, Discard, Inv, Invall};
ghost use Rattle.model.specs.declared.Refusal.TheVariants.{ResourceNotFound};
ghost use Rattle.model.specs.Choose.{if_found};
ghost use Rattle.model.specs.Step.{delivery_in, executed, check, stepped};
ghost use Rattle.lent_tables.specs.Numbers.{unit_in};

use lent_tables::{Numbers, records};
use model::{CollectionId, Delivery, ItsAction, Pair, Refusal, Translation};

pub fn move_translation(
    state: &mut Numbers,
    pair: Pair,
    collection: CollectionId,
) -> Result<(), Refusal>
    ensures verdict { result ≡ check (unit_in state.old) (Movi pair.device pair.event collection) }
    ensures left { unit_in state.new ≡ stepped (unit_in state.old) (Movi pair.device pair.event collection) }
{
    crate::check_size(state, pair.device)?;
    records::find_collection(state, collection).ok_or(Refusal::CollectionUnmapped)?;
    let at = records::find_pair(state, pair).ok_or(Refusal::PairUnmapped)?;
    let held = records::translation_at(state, at);
    lent_tables::put_translation(state, at, Translation { collection, ..held });
    Ok(())
}

// Where a message goes.
pub fn deliver(state: &Numbers, pair: Pair) -> Result<Delivery, Refusal>
    ensures { result ≡ if_found (delivery_in (unit_in state.now) pair.device pair.event) Ok (Err ResourceNotFound) }
{
    let at = records::find_pair(state, pair).ok_or(Refusal::ResourceNotFound)?;
    let entry = records::translation_at(state, at);
    let home = records::find_collection(state, entry.collection).ok_or(Refusal::ResourceNotFound)?;
    Ok(Delivery {
        lpi: entry.lpi,
        target: records::collection_at(state, home).target,
    })
}

// INT and CLEAR.
pub fn set_pending(state: &Numbers, pair: Pair, pending: bool) -> Result<ItsAction, Refusal>
    ensures { result_map_both Some (λ why. why) result ≡ executed (unit_in state.now) (if pending then Int pair.device pair.event else Clear pair.device pair.event) }
{
    crate::check_size(state, pair.device)?;
    let Delivery { lpi, target } = deliver(state, pair)?;
    Ok(ItsAction {
        target,
        lpi,
        pending,
    })
}

pub fn discard(state: &mut Numbers, pair: Pair) -> Result<(), Refusal>
    ensures verdict { result ≡ check (unit_in state.old) (Discard pair.device pair.event) }
    ensures left { unit_in state.new ≡ stepped (unit_in state.old) (Discard pair.device pair.event) }
{
    crate::check_size(state, pair.device)?;
    records::find_pair(state, pair).ok_or(Refusal::PairUnmapped)?;
    records::drop_pairs(state, pair);
    Ok(())
}

pub fn invalidate(state: &Numbers, pair: Pair) -> Result<(), Refusal>
    ensures { result ≡ check (unit_in state.now) (Inv pair.device pair.event) }
{
    crate::check_size(state, pair.device)?;
    records::find_pair(state, pair).ok_or(Refusal::PairUnmapped)?;
    Ok(())
}

pub fn invalidate_all(state: &Numbers, collection: CollectionId) -> Result<(), Refusal>
    ensures { result ≡ check (unit_in state.now) (Invall collection) }
{
    records::find_collection(state, collection).ok_or(Refusal::CollectionUnmapped)?;
    Ok(())
}
