//! Parser combinators: parts, and how they are put together, one behind another, behind a mark, as many as stand there.
ghost use Rattle.std.specs.Prelude.{◌≡◌, ℕ, ◌+◌, ◌≤◌, ◌<◌, Bool, IfOk, IfErr, List, Option, length, map};
ghost use Rattle.std.specs.Option.{option_map};
ghost use Rattle.op_parse_decl.specs.Begun.{BehindBegun, RepeatsBegun, SeparatedBegun, ThenBegun};
ghost use Rattle.op_parse_decl.specs.Refusal.{Never, RefusesParts};
ghost use Rattle.op_parse_code.specs.WholeStatement.{front_is};
ghost use Rattle.op_parse_code.specs.declared.mark.Mark.{Mark};
ghost use Rattle.op_parse_code.proofs.Refusing.{Known};
ghost use Rattle.op_parse_decl.specs.Combined.{Behind, Both, Repeats, Separated, Stands, Then, both};
ghost use Rattle.op_parse_decl.specs.Known.{As, known_as, known_behind, known_repeats, known_separated, known_stands, known_then};
ghost use Rattle.op_scan.specs.declared.token.TokenKind.{TokenKind};
ghost use Rattle.op_tree.specs.Terminal.{Terminal, terminals};

use crate::sign::Sign;
use op_base::Place;
use op_parse_code::ParseError;
use op_parse_code::shared::{after_mark, behind_mark, fitted};
use op_scan::{Token, TokenKind};
use std::alloc::Global;
use std::marker::PhantomData;

/// What a reader has beside its tokens: room for the tree, the depth that is left, and where the file ends.
#[derive(Clone, Copy)]
pub struct Setting {
    pub alloc: Global,
    pub left: u32,
    pub end: Place,
}

/// What a reader answers: the part at the front and what stands behind it, or why none stands there.
pub type Answer<'a, T> = Result<(T, &'a [Token]), ParseError>;

/// A sort of parts, with the grammar's relation for it.
pub trait Part: Drop {
    ghost Said: { Type 0 };

    ghost says: { Self → Said };

    ghost phrase: { ℕ → Said → List Terminal → List Terminal → Type 0 };

    // What is shown where one in it is nested too deep.
    ghost begun: { ℕ → List Terminal → List Terminal → Type 0 };

    // The fewest tokens of it.
    ghost least: { ℕ } = { 1 };

    /// The part at the front, and what stands behind it.
    fn read<'a>(setting: Setting, tokens: &'a [Token]) -> Answer<'a, Self>
        ensures whole { IfOk result (λ f. phrase setting.left (says f.0) (terminals tokens.now) (terminals f.1.now)) }
        ensures refused { IfErr result (RefusesParts begun phrase setting.left setting.end (terminals tokens.now)) }
        ensures shorter { IfOk result (λ f. length f.1.now + least ≤ length tokens.now) };

    ghost known: { Known phrase };
}

impl<A: Part, B: Part> Part for (A, B) {
    ghost Said = { Both A.Said B.Said };

    ghost says = { λ x. both (A.says x.0) (B.says x.1) };

    ghost phrase = { Then A.phrase B.phrase };

    ghost begun = { ThenBegun A.begun A.phrase B.begun };

    ghost least = { A.least + B.least };

    fn read<'a>(setting: Setting, tokens: &'a [Token]) -> Answer<'a, (A, B)> {
        let (first, rest) = A::read(setting, tokens)?;
        let (second, rest) = B::read(setting, rest)?;
        Ok(((first, second), rest))
    }

    ghost known = { known_then A.known B.known };
}

/// A mark that must stand there.
#[derive(Drop)]
pub struct Stands<S: Sign> {
    sign: PhantomData<S>,
}

impl<S: Sign> Part for Stands<S> {
    ghost Said = { Unit {0} };

    ghost says = { λ _. tt };

    ghost phrase = { Stands S.sign };

    ghost begun = { Never };

    fn read<'a>(setting: Setting, tokens: &'a [Token]) -> Answer<'a, Stands<S>> {
        let rest = after_mark(S::sign(), setting.end, tokens)?;
        Ok((Stands { sign: PhantomData }, rest))
    }

    ghost known = { known_stands S.sign };
}

/// A part behind a mark, if the mark stands there.
#[derive(Drop)]
pub struct Behind<S: Sign, A> {
    pub part: Option<A>,
    sign: PhantomData<S>,
}

impl<S: Sign, A: Part> Part for Behind<S, A> {
    ghost Said = { Option A.Said };

    ghost says = { λ x. option_map A.says x.part };

    ghost phrase = { Behind S.sign A.phrase };

    ghost begun = { BehindBegun S.sign A.begun };

    ghost least = { 0 };

    fn read<'a>(setting: Setting, tokens: &'a [Token]) -> Answer<'a, Behind<S, A>> {
        let sign = PhantomData;
        match behind_mark(S::sign(), tokens) {
            None => Ok((Behind { part: None, sign }, tokens)),
            Some(after) => {
                let (part, rest) = A::read(setting, after)?;
                let part = Some(part);
                Ok((Behind { part, sign }, rest))
            }
        }
    }

    ghost known = { known_behind A.known };
}

/// A part that a list goes on with as long as its first token passes a test.
pub trait Item: Part {
    ghost test: { TokenKind → Bool };

    /// The part begins with a token of this kind.
    fn opens(kind: &TokenKind) -> bool
        ensures { result ≡ test kind.now };

    ghost moves: { 0 < Self.least };
}

/// The tokens begin as the part does.
pub fn begins<A: Item>(tokens: &[Token]) -> bool
    ensures { result ≡ front_is A.test (terminals tokens.now) }
{
    match tokens.split_first() {
        None => false,
        Some((first, _)) => A::opens(&first.kind),
    }
}

/// All parts at the front.
#[derive(Drop)]
pub struct Repeated<A> {
    pub items: Vec<A>,
}

impl<A: Item> Part for Repeated<A> {
    ghost Said = { List A.Said };

    ghost says = { λ x. map A.says x.items.items };

    ghost phrase = { Repeats A.test A.phrase };

    ghost begun = { RepeatsBegun A.test A.phrase A.begun };

    ghost least = { 0 };

    fn read<'a>(setting: Setting, tokens: &'a [Token]) -> Answer<'a, Repeated<A>> {
        let mut items = Vec::new(setting.alloc);
        let mut rest = tokens;
        while begins::<A>(rest) {
            let (item, behind) = A::read(setting, rest)?;
            items.push(item)?;
            rest = behind;
        }
        let items = fitted(items);
        Ok((Repeated { items }, rest))
    }

    ghost known = { known_repeats A.known };
}

/// Parts with a mark between them, at least one.
#[derive(Drop)]
pub struct Separated<S: Sign, A> {
    pub items: Vec<A>,
    sign: PhantomData<S>,
}

impl<S: Sign, A: Part> Part for Separated<S, A> {
    ghost Said = { List A.Said };

    ghost says = { λ x. map A.says x.items.items };

    ghost phrase = { Separated S.sign A.phrase };

    ghost begun = { SeparatedBegun S.sign A.phrase A.begun };

    ghost least = { A.least };

    fn read<'a>(setting: Setting, tokens: &'a [Token]) -> Answer<'a, Separated<S, A>> {
        let mut items = Vec::new(setting.alloc);
        let mut rest = tokens;
        loop {
            let (part, behind) = A::read(setting, rest)?;
            items.push(part)?;
            match behind_mark(S::sign(), behind) {
                Some(after) => rest = after,
                None => {
                    let sign = PhantomData;
                    let items = fitted(items);
                    return Ok((Separated { items, sign }, behind));
                }
            }
        }
    }

    ghost known = { known_separated A.known };
}

/// A part that is made of others.
pub trait Made: Drop {
    type Parts: Part;

    ghost Said: { Type 0 };

    ghost says: { Self → Said };

    ghost phrase: { ℕ → Said → List Terminal → List Terminal → Type 0 };

    /// What the parts make.
    fn of(alloc: Global, parts: Self::Parts) -> Self
        ensures { (d : ℕ) (ks r : List Terminal) → Self.Parts.phrase d (Self.Parts.says parts) ks r → phrase d (says result) ks r };

    ghost made: { As Self.Parts.phrase phrase };
}

impl<T: Made> Part for T {
    ghost Said = { T.Said };

    ghost says = { T.says };

    ghost phrase = { T.phrase };

    ghost begun = { T.Parts.begun };

    ghost least = { T.Parts.least };

    fn read<'a>(setting: Setting, tokens: &'a [Token]) -> Answer<'a, T> {
        let (parts, rest) = T::Parts::read(setting, tokens)?;
        Ok((T::of(setting.alloc, parts), rest))
    }

    ghost known = { known_as T.made T.Parts.known };
}
