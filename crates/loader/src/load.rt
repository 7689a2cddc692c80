// Loading a source whole.
ghost use Rattle.std.specs.Prelude.{◌≡◌, MatchResult};
ghost use Rattle.refusals.specs.declared.LoadRefusal.{LoadRefusal};
ghost use Rattle.models.specs.Edits.{blank};
ghost use Rattle.loadings.specs.Loadings.{loaded, accepted, refused};
ghost use Rattle.loadings.specs.Laws.{KeptByLoading};
ghost use Rattle.graphlike.specs.Diagrams.{model};
ghost use Rattle.loader.specs.Loads.{answer_of, model_of, left_of};

use crate::loading::Loading;
use diagrams::source::Source;
use graphlike::Diagram;
use refusals::LoadRefusal;

// The diagram of all items.
fn take_all<S: Source>(source: &mut S) -> Result<Diagram, LoadRefusal>
    ensures { MatchResult result (λ d. loaded (S.Source.rest source.old) ≡ accepted (model d) (S.Source.rest source.new)) (λ e. loaded (S.Source.rest source.old) ≡ refused e (S.Source.rest source.new)) }
{
    let mut loading = Loading::new();
    while let Some(item) = source
        .next()
        .map_err(|fault| LoadRefusal::Unreadable(fault, loading.item))?
    {
        loading.take(item)?;
    }
    Ok(loading.diagram)
}

// Empties the diagram, and takes the items of the source up to its end, a fault or a refusal. A diagram that is
// loaded has the amplitude of its items at every row; a refused loading leaves a diagram of nothing.
pub fn load<S: Source>(diagram: &mut Diagram, source: &mut S) -> Result<(), LoadRefusal>
    ensures value { result ≡ answer_of (loaded (S.Source.rest source.old)) }
    ensures after { model diagram.new ≡ model_of (loaded (S.Source.rest source.old)) }
    ensures left { S.Source.rest source.new ≡ left_of (loaded (S.Source.rest source.old)) }
    ensures kept { MatchResult result (λ _. KeptByLoading (S.Source.rest source.old).items (model diagram.new)) (λ _. model diagram.new ≡ blank) }
{
    *diagram = Diagram::new();
    *diagram = take_all(source)?;
    Ok(())
}
