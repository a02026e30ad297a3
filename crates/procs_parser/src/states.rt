use gr_word::{Label, Name};
use procs_tree::{PStmt, Param, Proc};
use src_parser::headings::Heading;
use src_parser::readings::Reading;
use src_parser::states::{Blocks, Phase};
use src_tree::{Decl, Expr};

// How far a call was read: up to its `(`, in an argument, or up to its `)`.
#[derive(Drop)]
pub(crate) enum CallPhase {
    Opened,
    Argument(Reading),
    Called,
}

// The effect of a token on a call: it is read; it ends the call; no call can continue with it; it exceeds a limit.
#[derive(Drop)]
pub(crate) enum CallAdvance {
    Goes,
    Ends,
    Wrong,
    TooMuch,
}

// What is read of a statement: a call, with its name and the arguments that are complete, or another statement.
#[derive(Drop)]
pub(crate) enum Mode {
    Reading(Phase<PStmt>),
    Calling(Name, Vec<Expr>, CallPhase),
}

// The phase in which a procedure's head and its locals are read, by the parameters, and the locals, read so far.
#[derive(Drop)]
pub(crate) enum HeadPhase {
    Opening,
    NoneYet,
    OneMore(Vec<Param>),
    ScalarLabelled(Vec<Param>, Label),
    ScalarTyped(Vec<Param>, Label),
    ArrayTyped(Vec<Param>),
    ArrayTitled(Vec<Param>, Name),
    ArrayClosing(Vec<Param>, Name),
    Behind(Vec<Param>),
    AllRead(Vec<Param>),
    LocalFresh(Vec<Param>, Vec<Decl>),
    LocalLabelled(Vec<Param>, Vec<Decl>, Label),
    LocalTyped(Vec<Param>, Vec<Decl>, Label),
    LocalTitled(Vec<Param>, Vec<Decl>, Label, Name),
}

// What comes before a procedure's head or its locals, and its name.
#[derive(Drop)]
pub(crate) struct Head {
    pub decls: Vec<Decl>,
    pub procs: Vec<Proc>,
    pub name: Name,
}

// What comes before statements: the declarations, the procedures, and the procedure that they are in, with its
// parameters and locals.
#[derive(Drop)]
pub(crate) enum Front {
    Outside(Vec<Decl>, Vec<Proc>),
    InProcedure(Head, Vec<Param>, Vec<Decl>),
}

// The phase before statements: between declarations, in one, or in a procedure's head or locals.
#[derive(Drop)]
pub(crate) enum Start {
    Between(Vec<Decl>),
    Declaring(Vec<Decl>, Heading),
    Naming(Head, HeadPhase),
}

// What was read of a file, and the phase.
#[derive(Drop)]
pub(crate) enum ParserState {
    Before(Start),
    Doing(Front, Blocks<PStmt>, Mode),
}

// What a token does to a file: it is read; it is the name of a procedure that begins; no file continues with it; it
// exceeds a limit.
#[derive(Drop)]
pub(crate) enum FileAdvance {
    Goes,
    Opens(Head),
    Wrong,
    TooMuch,
}
