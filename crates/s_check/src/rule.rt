//! Rules.
ghost use Rattle.std.specs.Prelude.{◌≡◌};
ghost use Rattle.s_check.specs.Refusal.{number_of};
ghost use Rattle.s_check.specs.Least.{lesser, least_of};
ghost use Rattle.s_check.specs.Rules.{when};

/// A rule of scripts, by what breaks it. Their order is that of their numbers.
#[derive(Clone, Copy, Debug, PartialEq, Eq)]
pub enum Rule {
    /// An earlier declaration has this name.
    NameDeclaredTwice,
    /// An effect has more than 8 arguments.
    EffectOfTooMany,
    /// A function or handler has more than 8 parameters.
    TooManyParameters,
    /// A handler has more than 16 clauses for effects.
    TooManyClauses,
    /// The name after `res` is no handler.
    NoHandlerOfType,
    /// A name is bound twice in a function, or in a clause with the handler's parameters.
    NameBoundTwice,
    /// Two clauses of a handler name one effect.
    ClauseForEffectTwice,
    /// A clause names no effect.
    ClauseForNoEffect,
    /// A clause binds another number of arguments than its effect has.
    OtherNumberInClause,
    /// A value name is read, assigned, resumed, stored into slots or switched to that is not bound before it in its block or one around it.
    NameNotBound,
    /// A name of a type `res h` or of type `coro` is assigned, or read elsewhere than as a whole argument of a call, of a list of a `handle`,
    /// or of the `with` of a `resume`; or a name of type `coro` is stored into slots.
    ResumptionElsewhere,
    /// A name that is called, handled, spawned or run in a group is no function.
    NoFunction,
    /// A `do` names no effect.
    NoEffect,
    /// The `with` of a `handle` names no handler.
    NoHandler,
    /// There is another number of arguments than of parameters of the function, effect or handler named, or of the handler of the resumed
    /// name's type.
    OtherNumberOfArguments,
    /// An argument for a parameter of type `res h` or `coro` is no bare name of that type, or one for a number is a bare name of such a type.
    ArgumentOfOtherType,
    /// The resumed name is bound and is no resumption.
    NoResumption,
    /// There is no function `main` without parameters.
    NoMain,
    /// A `store` or `take` names no slots.
    NoSlots,
    /// Slots have no place, or more than 65,536.
    SlotsOfOtherNumber,
    /// A name that is stored is bound and is no resumption of the slots' handler.
    StoredOfOtherType,
    /// What is spawned has other parameters than a number and a coroutine, or what is run in a group others than a number.
    OtherParameters,
    /// The target of a `switch` is bound and is no coroutine.
    NoCoroutine,
}

impl Rule {
    /// Its number, from 1 to 23.
    pub fn number(self) -> u8
        ensures value { result ≡ number_of self }
    {
        match self {
            Rule::NameDeclaredTwice => 1,
            Rule::EffectOfTooMany => 2,
            Rule::TooManyParameters => 3,
            Rule::TooManyClauses => 4,
            Rule::NoHandlerOfType => 5,
            Rule::NameBoundTwice => 6,
            Rule::ClauseForEffectTwice => 7,
            Rule::ClauseForNoEffect => 8,
            Rule::OtherNumberInClause => 9,
            Rule::NameNotBound => 10,
            Rule::ResumptionElsewhere => 11,
            Rule::NoFunction => 12,
            Rule::NoEffect => 13,
            Rule::NoHandler => 14,
            Rule::OtherNumberOfArguments => 15,
            Rule::ArgumentOfOtherType => 16,
            Rule::NoResumption => 17,
            Rule::NoMain => 18,
            Rule::NoSlots => 19,
            Rule::SlotsOfOtherNumber => 20,
            Rule::StoredOfOtherType => 21,
            Rule::OtherParameters => 22,
            Rule::NoCoroutine => 23,
        }
    }
}

/// The least rule, where one more is broken.
pub(crate) fn broken(rule: Rule, least: Option<Rule>) -> Option<Rule>
    ensures value { result ≡ lesser least rule }
{
    match least {
        Some(other) => {
            if rule.number() < other.number() {
                Some(rule)
            } else {
                Some(other)
            }
        }
        None => Some(rule),
    }
}

/// The least rule, where one more is broken if this holds.
pub(crate) fn broken_where(holds: bool, rule: Rule, least: Option<Rule>) -> Option<Rule>
    ensures value { result ≡ least_of least (when holds rule) }
{
    if holds { broken(rule, least) } else { least }
}
