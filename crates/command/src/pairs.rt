// The commands on a pair or a collection that is mapped: MOVI, INT, CLEAR, DISCARD, INV and INVALL; and where a message goes.
#![tactic(auto, using(model::proofs::CommandLaws::searches), unfolding(crate::specs::Carried::next, model::specs::Step::move_pair, model::specs::Step::store_translation, model::specs::Step::delivery_in, model::specs::Step::executed, model::specs::Step::actions_on, model::specs::Step::drop_pair))]

ghost use Rattle.std.specs.Prelude.{◌≡◌, if◌then◌else◌, Ok, Err, Some};
ghost use Rattle.std.specs.Result.{result_map_both};
ghost use Rattle.model.specs.declared.Command.TheVariants.{Movi, Int, Clear, Discard, Inv, Invall};
ghost use Rattle.model.specs.declared.Refusal.TheVariants.{ResourceNotFound};
ghost use Rattle.model.specs.Choose.{if_found};
ghost use Rattle.model.specs.Step.{delivery_in, executed, check};
ghost use Rattle.command.specs.Carried.{next};

use model::{CollectionId, Delivery, ItsAction, ItsState, Pair, Refusal};

#[inline(never)]
pub fn move_translation(
    unit: ItsState,
    pair: Pair,
    collection: CollectionId,
) -> Result<ItsState, Refusal>
    ensures { result ≡ next unit (Movi pair.device pair.event collection) }
{
    crate::check_size(unit.config, pair.device)?;
    tables::look(&unit.collections, collection).ok_or(Refusal::CollectionUnmapped)?;
    let at = tables::find(&unit.translations, pair).ok_or(Refusal::PairUnmapped)?;
    let mut next = unit;
    next.translations[at].collection = collection;
    Ok(next)
}

// Where a message goes.
pub fn deliver(unit: ItsState, pair: Pair) -> Result<Delivery, Refusal>
    ensures { result ≡ if_found (delivery_in unit pair.device pair.event) Ok (Err ResourceNotFound) }
{
    let entry = tables::look(&unit.translations, pair).ok_or(Refusal::ResourceNotFound)?;
    let home = tables::look(&unit.collections, entry.collection).ok_or(Refusal::ResourceNotFound)?;
    Ok(Delivery {
        lpi: entry.lpi,
        target: home.target,
    })
}

// INT and CLEAR.
pub fn set_pending(unit: ItsState, pair: Pair, pending: bool) -> Result<ItsAction, Refusal>
    ensures { result_map_both Some (λ why. why) result ≡ executed unit (if pending then Int pair.device pair.event else Clear pair.device pair.event) }
{
    crate::check_size(unit.config, pair.device)?;
    let Delivery { lpi, target } = deliver(unit, pair)?;
    Ok(ItsAction {
        target,
        lpi,
        pending,
    })
}

#[inline(never)]
pub fn discard(unit: ItsState, pair: Pair) -> Result<ItsState, Refusal>
    ensures { result ≡ next unit (Discard pair.device pair.event) }
{
    crate::check_size(unit.config, pair.device)?;
    tables::look(&unit.translations, pair).ok_or(Refusal::PairUnmapped)?;
    Ok(ItsState {
        translations: tables::drop_all(unit.translations, pair),
        ..unit
    })
}

pub fn invalidate(unit: ItsState, pair: Pair) -> Result<(), Refusal>
    ensures { result ≡ check unit (Inv pair.device pair.event) }
{
    crate::check_size(unit.config, pair.device)?;
    tables::look(&unit.translations, pair).ok_or(Refusal::PairUnmapped)?;
    Ok(())
}

pub fn invalidate_all(unit: ItsState, collection: CollectionId) -> Result<(), Refusal>
    ensures { result ≡ check unit (Invall collection) }
{
    tables::look(&unit.collections, collection).ok_or(Refusal::CollectionUnmapped)?;
    Ok(())
}
