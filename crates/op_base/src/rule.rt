//! The rules of the language that a program can break, by number.
ghost use Rattle.std.specs.Prelude.{◌≡◌, Some, None, IfSome, IfNone};
ghost use Rattle.op_base.specs.Rule.{HasText, text_of_rule, text_of_feature};

use crate::Place;

/// A rule: its V number, and for rule 13 the feature that the profile leaves out. The feature is 0 for every other rule.
#[derive(Clone, Copy, Debug, PartialEq, Eq)]
pub struct Rule {
    pub number: u8,
    pub feature: u8,
}

/// The rule that a program breaks, and where.
#[derive(Clone, Copy, Debug)]
pub struct Refusal {
    pub rule: Rule,
    pub place: Place,
}

/// A file is missing.
pub const FILE_MISSING: Rule = Rule {
    number: 10,
    feature: 0,
};

/// The text of a rule, as the line of a refusal shows it after the V number. There are rules 1 to 72, and features 1 to
/// 44 without 37.
pub fn rule_text(rule: Rule) -> &'static str
    requires { HasText rule }
    ensures { text_of_rule rule ≡ Some result.now }
{
    match known_text(rule) {
        Some(text) => text,
        None => unreachable!(),
    }
}

/// The text of a rule; none where there is no such rule.
#[tactic(auto, unfolding(crate::specs::Rule::text_of_rule))]
fn known_text(rule: Rule) -> Option<&'static str>
    ensures given { IfSome result (λ text. text_of_rule rule ≡ Some text.now) }
    ensures absent { IfNone result (text_of_rule rule ≡ None) }
{
    match rule.number {
        1 => Some("no token begins here"),
        2 => Some("string not closed"),
        3 => Some("comment not closed"),
        4 => Some("bad number"),
        5 => Some("bad character constant"),
        6 => Some("bad directive"),
        7 => Some("mode is not objfpc"),
        8 => Some("conditional or include directive"),
        9 => Some("syntax"),
        10 => Some("file missing"),
        11 => Some("cycle of interface parts"),
        12 => Some("unit name differs from its file"),
        13 => feature_text(rule.feature),
        14 => Some("name declared twice in one scope"),
        15 => Some("unknown name"),
        16 => Some("name of the wrong kind here"),
        17 => Some("unit used twice or by itself"),
        18 => Some("routine without body"),
        19 => Some("heading differs from its declaration"),
        20 => Some("types not assignable"),
        21 => Some("operator not defined here"),
        22 => Some("condition is not Boolean"),
        23 => Some("ordinal type needed"),
        24 => Some("cannot be indexed so"),
        25 => Some("no such member"),
        26 => Some("wrong number of arguments"),
        27 => Some("variable needed"),
        28 => Some("variable of another type"),
        29 => Some("cannot be assigned"),
        30 => Some("constant needed"),
        31 => Some("empty range"),
        32 => Some("case label twice"),
        33 => Some("constant out of range"),
        34 => Some("set element out of 0 to 31"),
        35 => Some("expression is no statement"),
        36 => Some("2147483648 without minus"),
        37 => Some("character of a string as variable"),
        38 => Some("type contains itself"),
        39 => Some("cast not allowed"),
        40 => Some("ancestor is no complete class"),
        41 => Some("interfaces need TInterfacedObject"),
        42 => Some("interface method missing"),
        43 => Some("reserved method name"),
        44 => Some("nothing to override"),
        45 => Some("heading differs from the interface"),
        46 => Some("bad destructor"),
        47 => Some("member not visible"),
        48 => Some("bad property accessor"),
        49 => Some("property cannot be read"),
        50 => Some("bad abstract method"),
        51 => Some("nothing inherited here"),
        52 => Some("forward declaration never completed"),
        53 => Some("bad operands of is or as"),
        54 => Some("class used as a value"),
        55 => Some("ancestor is no interface"),
        56 => Some("class does not descend from Exception"),
        57 => Some("raise outside a handler"),
        58 => Some("no loop here"),
        59 => Some("leaves a finally part"),
        60 => Some("cannot be written or read"),
        61 => Some("nested deeper than 200"),
        62 => Some("file too large"),
        63 => Some("more than 1,000 units"),
        64 => Some("too many declarations or values"),
        65 => Some("identifier too long"),
        66 => Some("string literal too long"),
        67 => Some("type too large"),
        68 => Some("more than 64 parameters"),
        69 => Some("locals too large"),
        70 => Some("more than 64 ancestors"),
        71 => Some("too many classes and interfaces"),
        72 => Some("globals too large"),
        _ => None,
    }
}

/// The text of rule 13 at a feature that the profile leaves out.
#[tactic(auto, unfolding(crate::specs::Rule::text_of_feature))]
fn feature_text(feature: u8) -> Option<&'static str>
    ensures given { IfSome result (λ text. text_of_feature feature ≡ Some text.now) }
    ensures absent { IfNone result (text_of_feature feature ≡ None) }
{
    match feature {
        1 => Some("not in this profile: floating point or /"),
        2 => Some("not in this profile: other integer type"),
        3 => Some("not in this profile: short string"),
        4 => Some("not in this profile: other string type"),
        5 => Some("not in this profile: pointer"),
        6 => Some("not in this profile: procedural type"),
        7 => Some("not in this profile: metaclass"),
        8 => Some("not in this profile: object type"),
        9 => Some("not in this profile: variant record"),
        10 => Some("not in this profile: record method"),
        11 => Some("not in this profile: file type"),
        12 => Some("not in this profile: overload"),
        13 => Some("not in this profile: operator"),
        14 => Some("not in this profile: default parameter"),
        15 => Some("not in this profile: with"),
        16 => Some("not in this profile: goto or label"),
        17 => Some("not in this profile: asm or inline"),
        18 => Some("not in this profile: array of const"),
        19 => Some("not in this profile: class member"),
        20 => Some("not in this profile: indexed or default property"),
        21 => Some("not in this profile: strict visibility"),
        22 => Some("not in this profile: method resolution"),
        23 => Some("not in this profile: corba interfaces"),
        24 => Some("not in this profile: interface to class"),
        25 => Some("not in this profile: case on strings"),
        26 => Some("not in this profile: resourcestring"),
        27 => Some("not in this profile: threadvar"),
        28 => Some("not in this profile: nested routine"),
        29 => Some("not in this profile: generic"),
        30 => Some("not in this profile: library or exports"),
        31 => Some("not in this profile: enumeration value given"),
        32 => Some("not in this profile: several lengths"),
        33 => Some("not in this profile: array constructor"),
        34 => Some("not in this profile: raise at"),
        35 => Some("not in this profile: fraction width"),
        36 => Some("not in this profile: interface property"),
        39 => Some("not in this profile: unit or halt"),
        40 => Some("not in this profile: string at run time"),
        41 => Some("not in this profile: dynamic or open array, for in"),
        42 => Some("not in this profile: class"),
        43 => Some("not in this profile: interface"),
        44 => Some("not in this profile: exception"),
        _ => None,
    }
}
