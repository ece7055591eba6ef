//! What is done with values, besides operators.

/// A built-in function of one value. Length, Low, High and Assigned look at a variable in place.
#[derive(Clone, Copy)]
pub enum Function {
    Length,
    Low,
    High,
    Ord,
    Succ,
    Pred,
    Abs,
    Sqr,
    Odd,
    Assigned,
    UpCase,
    /// `Copy` of a whole array or string.
    Whole,
    /// The name of an instance's class.
    ClassName,
}

/// How a value becomes one of another type.
#[derive(Clone, Copy)]
pub enum Conversion {
    /// It is one as it is.
    Keep,
    /// The low bits of an integer are kept.
    LowBits,
    /// Error 201 where the type has no such value; a set has it where its base has all its elements.
    Check,
    /// A Char becomes a string.
    ToString,
    /// An instance of a class becomes an interface that the class implements.
    ToInterface,
    /// Error 219 where an instance is not of the class, or its class does not implement the interface.
    Instance,
}

/// What stands in the text for a conversion.
#[derive(Clone, Copy)]
pub enum Origin {
    Implied,
    /// The type as a call.
    Cast,
    /// The operator `as` and the type.
    As_,
}

/// How the routine of a method call is found.
#[derive(Clone, Copy)]
pub enum Dispatch {
    /// It is the one that is named: also behind `inherited`.
    Direct,
    /// By the class of the instance.
    Virtual,
    /// By the class of the instance behind an interface.
    Interface,
}
