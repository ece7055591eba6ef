//! Choices by the first token, parts one deeper, and forms that are left out.
ghost use Rattle.std.specs.Prelude.{◌≡◌, ◌+◌, IfSome, List, map, suc, min};
ghost use Rattle.op_parse_decl.specs.Form.{HasForm};
ghost use Rattle.op_parse_decl.specs.Begun.{AheadBegun, ChoiceBegun, DeeperBegun, ForkBegun, RepeatsBegun, ThenBegun};
ghost use Rattle.op_parse_decl.specs.Combined.{Ahead, Both, Choice, Deeper, Fork, Nothing, Or, Several, TellsBehind, Then, both};
ghost use Rattle.op_parse_decl.specs.Either.{ahead_of, either_of, fork_of};
ghost use Rattle.op_parse_decl.specs.Known.{known_ahead, known_choice, known_deeper, known_fork, known_nothing, known_several, known_then};
ghost use Rattle.op_parse_decl.specs.Refusal.{Never};
ghost use Rattle.op_tree.specs.Terminal.{terminals};

use crate::form::told_at;
use crate::part::{Answer, Item, Part, Repeated, Setting, begins};
use crate::sign::Sign;
use op_parse_code::shared::{behind_mark, enter, syntax};
use op_scan::Token;
use std::marker::PhantomData;

/// One part where the first token passes its test, else another.
#[derive(Drop)]
pub enum Either<A, B> {
    First(A),
    Second(B),
}

impl<A: Item, B: Part> Part for Either<A, B> {
    ghost Said = { Or A.Said B.Said };

    ghost says = { either_of A.says B.says };

    ghost phrase = { Choice A.test A.phrase B.phrase };

    ghost begun = { ChoiceBegun A.test A.begun B.begun };

    ghost least = { min A.least B.least };

    fn read<'a>(setting: Setting, tokens: &'a [Token]) -> Answer<'a, Either<A, B>> {
        if begins::<A>(tokens) {
            let (part, rest) = A::read(setting, tokens)?;
            return Ok((Either::First(part), rest));
        }
        let (part, rest) = B::read(setting, tokens)?;
        Ok((Either::Second(part), rest))
    }

    ghost known = { known_choice A.known B.known };
}

/// One part behind a mark, or another where the mark does not stand.
#[derive(Drop)]
pub enum Fork<S: Sign, A, B> {
    Marked(A, PhantomData<S>),
    Unmarked(B),
}

impl<S: Sign, A: Part, B: Part> Part for Fork<S, A, B> {
    ghost Said = { Or A.Said B.Said };

    ghost says = { fork_of A.says B.says };

    ghost phrase = { Fork S.sign A.phrase B.phrase };

    ghost begun = { ForkBegun S.sign A.begun B.begun };

    ghost least = { min (suc A.least) B.least };

    fn read<'a>(setting: Setting, tokens: &'a [Token]) -> Answer<'a, Fork<S, A, B>> {
        match behind_mark(S::sign(), tokens) {
            Some(after) => {
                let (part, rest) = A::read(setting, after)?;
                Ok((Fork::Marked(part, PhantomData), rest))
            }
            None => {
                let (part, rest) = B::read(setting, tokens)?;
                Ok((Fork::Unmarked(part), rest))
            }
        }
    }

    ghost known = { known_fork A.known B.known };
}

/// One part that begins with a mark where the mark stands, else another.
#[derive(Drop)]
pub enum Ahead<S: Sign, A, B> {
    Marked(A, PhantomData<S>),
    Unmarked(B),
}

impl<S: Sign, A: Part, B: Part> Part for Ahead<S, A, B> {
    ghost Said = { Or A.Said B.Said };

    ghost says = { ahead_of A.says B.says };

    ghost phrase = { Ahead S.sign A.phrase B.phrase };

    ghost begun = { AheadBegun S.sign A.begun B.begun };

    ghost least = { 0 };

    fn read<'a>(setting: Setting, tokens: &'a [Token]) -> Answer<'a, Ahead<S, A, B>> {
        match behind_mark(S::sign(), tokens) {
            Some(_) => {
                let (part, rest) = A::read(setting, tokens)?;
                Ok((Ahead::Marked(part, PhantomData), rest))
            }
            None => {
                let (part, rest) = B::read(setting, tokens)?;
                Ok((Ahead::Unmarked(part), rest))
            }
        }
    }

    ghost known = { known_ahead A.known B.known };
}

/// No part.
#[derive(Drop)]
pub struct Empty;

impl Part for Empty {
    ghost Said = { Unit {0} };

    ghost says = { λ _. tt };

    ghost phrase = { Nothing };

    ghost begun = { Never };

    ghost least = { 0 };

    fn read<'a>(_setting: Setting, tokens: &'a [Token]) -> Answer<'a, Empty> {
        Ok((Empty, tokens))
    }

    ghost known = { known_nothing };
}

/// All parts at the front, at least one.
#[derive(Drop)]
pub struct Several<A> {
    pub items: Vec<A>,
}

impl<A: Item> Part for Several<A> {
    ghost Said = { List A.Said };

    ghost says = { λ x. map A.says x.items.items };

    ghost phrase = { Several A.test A.phrase };

    ghost begun = { RepeatsBegun A.test A.phrase A.begun };

    ghost least = { 0 };

    fn read<'a>(setting: Setting, tokens: &'a [Token]) -> Answer<'a, Several<A>> {
        if begins::<A>(tokens) {
            let (all, rest) = Repeated::<A>::read(setting, tokens)?;
            return Ok((Several { items: all.items }, rest));
        }
        Err(syntax(setting.end, tokens))
    }

    ghost known = { known_several A.known };
}

/// A part that is counted.
#[derive(Drop)]
pub struct Nested<A> {
    pub part: A,
}

impl<A: Part> Part for Nested<A> {
    ghost Said = { A.Said };

    ghost says = { λ x. A.says x.part };

    ghost phrase = { Deeper A.phrase };

    ghost begun = { DeeperBegun A.begun };

    ghost least = { A.least };

    fn read<'a>(setting: Setting, tokens: &'a [Token]) -> Answer<'a, Nested<A>> {
        let left = enter(setting.left, setting.end, tokens)?;
        let (part, rest) = A::read(Setting { left, ..setting }, tokens)?;
        Ok((Nested { part }, rest))
    }

    ghost known = { known_deeper A.known };
}

/// A form that is left out and shows at the front.
pub trait Form {
    /// The number of its feature, and the tokens from the one on with which no sentence goes on.
    fn feature(tokens: &[Token]) -> Option<(u8, &[Token])>
        ensures { IfSome result (λ f. HasForm f.0 (terminals tokens.now) (terminals tokens.now) (terminals f.1.now)) };
}

/// A part; where rule 9 refuses it in a form that is left out, that form.
#[derive(Drop)]
pub struct Unless<F: Form, A> {
    pub part: A,
    form: PhantomData<F>,
}

impl<F: Form, A: Part> Part for Unless<F, A> {
    ghost Said = { A.Said };

    ghost says = { λ x. A.says x.part };

    ghost phrase = { A.phrase };

    ghost begun = { A.begun };

    ghost least = { A.least };

    fn read<'a>(setting: Setting, tokens: &'a [Token]) -> Answer<'a, Unless<F, A>> {
        match A::read(setting, tokens) {
            Ok((part, rest)) => {
                let form = PhantomData;
                Ok((Unless { part, form }, rest))
            }
            Err(error) => match F::feature(tokens) {
                Some((feature, last)) => Err(told_at(feature, setting.end, tokens, last, error)),
                None => Err(error),
            },
        }
    }

    ghost known = { A.known };
}

/// A form that is left out and shows behind a part: it is told from the first token of that part on.
pub trait FormBehind {
    type Front: Part;

    /// The number of its feature, where the tokens stand behind that part.
    fn feature(tokens: &[Token]) -> Option<u8>
        ensures { IfSome result (λ feature. TellsBehind Self.Front.phrase feature (terminals tokens.now)) };
}

/// A part, and behind it another; where that is refused by rule 9 and a form that is left out shows there, that form.
#[derive(Drop)]
pub struct Unbroken<F: FormBehind, A> {
    pub front: F::Front,
    pub part: A,
    form: PhantomData<F>,
}

impl<F: FormBehind, A: Part> Part for Unbroken<F, A> {
    ghost Said = { Both F.Front.Said A.Said };

    ghost says = { λ x. both (F.Front.says x.front) (A.says x.part) };

    ghost phrase = { Then F.Front.phrase A.phrase };

    ghost begun = { ThenBegun F.Front.begun F.Front.phrase A.begun };

    ghost least = { F.Front.least + A.least };

    fn read<'a>(setting: Setting, tokens: &'a [Token]) -> Answer<'a, Unbroken<F, A>> {
        let (front, rest) = F::Front::read(setting, tokens)?;
        match A::read(setting, rest) {
            Ok((part, behind)) => {
                let form = PhantomData;
                Ok((Unbroken { front, part, form }, behind))
            }
            Err(error) => match F::feature(rest) {
                Some(feature) => Err(told_at(feature, setting.end, rest, rest, error)),
                None => Err(error),
            },
        }
    }

    ghost known = { known_then F.Front.known A.known };
}
