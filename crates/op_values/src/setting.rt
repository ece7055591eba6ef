//! What statements are made into items against, and where values go.
ghost use Rattle.std.specs.Prelude.{◌≡◌, ◌+◌, IfOk};
ghost use Rattle.op_values.specs.Setting.{here_view};
ghost use Rattle.op_semantics.specs.Expressions.{first_here, holding, past, past_whole};

use crate::ids::TemporaryId;
use op_base::NoMemory;
use op_core::{Core, RoutineId};
use std::alloc::Global;

/// The program's tables, the routine whose text it is, and where memory comes from.
#[derive(Clone, Copy)]
pub struct Setting<'a> {
    pub alloc: Global,
    pub core: &'a Core,
    pub routine: RoutineId,
}

/// Where values go. Temporaries are numbered by where a value stands in the text: `temporary` is the first free one for a number,
/// `whole` the first free one for another value that has not to be ended, and `held` the first free one for a value that has.
#[derive(Clone, Copy)]
pub struct Here {
    temporary: u32,
    whole: u32,
    held: u32,
}

impl Here {
    /// At the beginning of a routine.
    pub fn new() -> Here
        ensures { here_view result ≡ first_here }
    {
        Here {
            temporary: 0,
            whole: 0,
            held: 0,
        }
    }

    /// The first free temporary for a number.
    pub fn first(self) -> TemporaryId
        ensures { result.0 ≡ (here_view self).temp }
    {
        TemporaryId(self.temporary)
    }

    /// The free temporary so many behind the first one.
    pub fn behind(self, count: u32) -> Result<TemporaryId, NoMemory>
        ensures { IfOk result (λ t. t.0 ≡ (here_view self).temp + count) }
    {
        Ok(TemporaryId(sum(self.temporary, count)?))
    }

    /// The first free temporary for a value that is no number.
    pub fn whole(self) -> u32
        ensures { result ≡ (here_view self).whole }
    {
        self.whole
    }

    /// The first free temporary for a value that has to be ended.
    pub fn held(self) -> u32
        ensures { result ≡ (here_view self).held }
    {
        self.held
    }

    /// With this one as the first free temporary for a value that has to be ended.
    pub fn holding(self, held: u32) -> Here
        ensures { here_view result ≡ holding held (here_view self) }
    {
        Here { held, ..self }
    }

    /// Behind so many temporaries.
    pub fn past(self, count: u32) -> Result<Here, NoMemory>
        ensures { IfOk result (λ here. here_view here ≡ past count (here_view self)) }
    {
        let temporary = sum(self.temporary, count)?;
        Ok(Here { temporary, ..self })
    }

    /// Behind one for a value that is no number.
    pub fn past_whole(self) -> Result<Here, NoMemory>
        ensures { IfOk result (λ here. here_view here ≡ past_whole (here_view self)) }
    {
        let whole = sum(self.whole, 1)?;
        Ok(Here { whole, ..self })
    }
}

/// The sum. No program that fits in memory has as many temporaries as its type has numbers.
pub fn sum(a: u32, b: u32) -> Result<u32, NoMemory>
    ensures { IfOk result (λ c. c ≡ a + b) }
{
    a.checked_add(b).ok_or(NoMemory)
}

/// The temporary so many behind this one.
pub fn behind(temporary: TemporaryId, count: u32) -> Result<TemporaryId, NoMemory>
    ensures { IfOk result (λ t. t.0 ≡ temporary.0 + count) }
{
    Ok(TemporaryId(sum(temporary.0, count)?))
}

/// The next temporary.
pub fn next(temporary: TemporaryId) -> Result<TemporaryId, NoMemory>
    ensures { IfOk result (λ t. t.0 ≡ temporary.0 + 1) }
{
    behind(temporary, 1)
}
