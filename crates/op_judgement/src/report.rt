//! Rules that are broken, reported.
ghost use Rattle.op_judgement.specs.Judgement.{Reports, refused};

use crate::LanguageRule;
use op_base::{Place, Refusal};
use op_core::FirstRefusal;

/// Reports a rule at a place. The part has no type.
pub fn refuse<T>(sink: &mut FirstRefusal, rule: LanguageRule, place: Place) -> Option<T>
    ensures { Reports (refused rule place) sink.old sink.new result }
{
    let rule = rule.rule();
    sink.report(Refusal { rule, place });
    None
}
