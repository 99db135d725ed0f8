//! The built-in methods, each named for what it does.

/// What a print or an append takes, and so how it is written: a truth value, a unit of UTF-16, a number of 32 or of 64 bits, a text or null.
#[derive(Clone, Copy)]
pub enum Printed {
    Boolean,
    Char,
    Int,
    Long,
    Text,
}

/// What a built-in method does. Each takes a receiver, and where that is null it throws.
#[derive(Clone, Copy)]
pub enum BuiltIn {
    /// Nothing, as the constructor of `Object` and that of `StringBuilder` without parameters.
    Construct,
    /// Whether the argument is the same object.
    IsSameObject,
    /// A throwable's message becomes null.
    ConstructThrowable,
    /// A throwable's message becomes the argument, a text or null.
    ConstructThrowableWith,
    /// A throwable's message.
    Message,
    /// How many units a text has.
    TextLength,
    /// The unit of a text at a place, or a new `StringIndexOutOfBoundsException`.
    CharAt,
    /// Whether the argument is a text of equal units.
    IsEqualText,
    /// The builder gets the units of a text; null throws.
    ConstructBuilder,
    /// The builder gets the argument as it is printed.
    Append(Printed),
    /// A new text of the builder's units.
    BuiltText,
    /// Prints the argument.
    Print(Printed),
    /// Prints the argument and a line feed.
    PrintLine(Printed),
    /// Prints a line feed.
    EndLine,
    /// A new array of equal elements.
    CloneArray,
}
