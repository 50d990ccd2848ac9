//! Declarations and scripts.

use crate::name::Name;
use crate::number::Number;
use crate::statement::Block;
use lists::ListOf;

/// The type of a variable.
#[derive(Drop)]
pub enum VariableType {
    /// A number.
    Int,
    /// `res handler`: a resumption of the handler of this name.
    Resumption(Name),
    /// `coro`: a coroutine.
    Coroutine,
}

/// A parameter of a function or of a handler, with its type.
#[derive(Drop)]
pub struct Parameter {
    pub name: Name,
    pub ty: VariableType,
}

/// A function: its parameters, and its body.
#[derive(Drop)]
pub struct Function {
    pub parameters: ListOf<Parameter>,
    pub body: Block,
}

/// What a handler does where an effect is performed: the arguments of the effect and the resumption have these names in its body.
#[derive(Drop)]
pub struct Clause {
    pub effect: Name,
    pub arguments: ListOf<Name>,
    pub resumption: Name,
    pub body: Block,
}

/// What a handler does where what it handles returns: the value has this name in its body.
#[derive(Drop)]
pub struct ReturnClause {
    pub value: Name,
    pub body: Block,
}

/// A handler: its parameters, and what it does on return and where effects are performed.
#[derive(Drop)]
pub struct Handler {
    pub parameters: ListOf<Parameter>,
    pub return_clause: ReturnClause,
    pub clauses: ListOf<Clause>,
}

/// Slots: how many places they have, each of which holds a resumption of the handler of this name, or nothing.
#[derive(Drop)]
pub struct Slots {
    pub handler: Name,
    pub places: Number,
}

/// What a declaration declares.
#[derive(Drop)]
pub enum Definition {
    /// `effect name/n;`: an effect, with the number of its arguments.
    Effect(Number),
    /// `fn name(parameters) body`.
    Function(Function),
    /// `handler name(parameters) { clauses }`, the return clause first.
    Handler(Handler),
    /// `slots name: res handler [places];`.
    Slots(Slots),
}

/// A declaration: a name, and what it stands for everywhere in the script.
#[derive(Drop)]
pub struct Declaration {
    pub name: Name,
    pub definition: Definition,
}

/// A script: its declarations, in order.
#[derive(Drop)]
pub struct Script {
    pub declarations: ListOf<Declaration>,
}
