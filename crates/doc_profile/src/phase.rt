/// One of the five named references.
#[derive(Clone, Copy, PartialEq, Eq)]
pub enum Entity {
    Less,
    Greater,
    Ampersand,
    Quotation,
    Apostrophe,
}

/// How far a reference has come.
#[derive(Clone, Copy, PartialEq, Eq)]
pub enum Refer {
    /// After the `&`.
    Begun,
    /// After `&a`.
    BegunA,
    /// In a name, of which this many characters are read.
    Named { entity: Entity, read: usize },
    /// After `&#`.
    Numbered,
    /// After `&#x`.
    Hexed,
    /// After a digit, with the number so far.
    Digits { hexadecimal: bool, number: u32 },
}

/// Which part of the markup is under way.
#[derive(Clone, Copy, PartialEq, Eq)]
pub enum Phase {
    /// Between two items.
    Ready,
    /// After a `<`.
    Opened,
    /// After `<!`.
    Bang,
    /// After `<!-`.
    BangDash,
    /// In a comment, with as many dashes after one another, two at most.
    Comment { dashes: u8 },
    /// In a processing instruction, directly after a question mark or not.
    Instruction { mark: bool },
    /// In a reference of a text.
    Reference { refer: Refer },
    /// In an end tag, of whose name as many bytes are read.
    EndName { read: usize },
    /// After the name of an end tag.
    EndSpaced,
    /// In the name of a start tag.
    StartName,
    /// After white space of a start tag.
    Spaced,
    /// In the name of an attribute.
    AttrName,
    /// After the name of an attribute and white space.
    AttrNamed,
    /// After the `=` of an attribute.
    Equals,
    /// In a value between two of these quotes.
    Quoted { quote: char },
    /// In a reference of such a value.
    QuotedReference { quote: char, refer: Refer },
    /// After a value.
    Valued,
    /// After the `/` of an empty element.
    Slashed,
}
