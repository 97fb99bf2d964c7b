//! Refusals of an input: their kinds and places, and the line that is written for each.
ghost use Rattle.std.specs.Prelude.{◌≡◌, IfOk};
ghost use Rattle.script_input.specs.Refusals.{kind_name, line_of};

use eio_value::NoMemory;
use itoa::Buffer;
use std::alloc::Global;

/// What is wrong with an input.
#[derive(Clone, Copy, Debug)]
pub enum Kind {
    /// A byte that begins nothing and ends nothing.
    Byte,
    /// The input ends too early.
    Unclosed,
    /// A `)` where no list is open, or a byte behind the whole tree.
    Stray,
    /// A run that begins like a number and is none.
    Number,
    /// A word or a text that is too long.
    LongText,
    /// Too many lists are open.
    Deep,
    /// A node that fits no form of its position.
    Shape,
    /// A number or a count outside its limits; also of the input itself, which is too long.
    Size,
    /// A new name that is taken.
    Twice,
    /// A name that isn't in scope with the kind that is wanted.
    Name,
    /// A form that only one mocked domain runs.
    MockOnly,
    /// A form that only several domains run.
    DomainOnly,
    /// A form that isn't built yet.
    Unbuilt,
    /// No byte 0, behind which the history stands that is to be checked.
    NoHistory,
    /// A form of lists that can't be written out.
    List,
    /// A form of the mocked network that can't be written out.
    Net,
}

/// Why an input is refused, and the offset of the place in its bytes.
#[derive(Clone, Copy, Debug)]
pub struct Refusal {
    pub kind: Kind,
    pub at: u32,
}

impl Kind {
    /// Its word in the line of a refusal.
    fn name(self) -> &'static [u8]
        ensures { result.now ≡ kind_name self }
    {
        match self {
            Kind::Byte => b"Byte",
            Kind::Unclosed => b"Unclosed",
            Kind::Stray => b"Stray",
            Kind::Number => b"Number",
            Kind::LongText => b"LongText",
            Kind::Deep => b"Deep",
            Kind::Shape => b"Shape",
            Kind::Size => b"Size",
            Kind::Twice => b"Twice",
            Kind::Name => b"Name",
            Kind::MockOnly => b"MockOnly",
            Kind::DomainOnly => b"DomainOnly",
            Kind::Unbuilt => b"Unbuilt",
            Kind::NoHistory => b"NoHistory",
            Kind::List => b"List",
            Kind::Net => b"Net",
        }
    }
}

/// The line of a refusal: `!Refused KIND at OFFSET`, with a line feed.
pub fn refusal_line(alloc: Global, refusal: Refusal) -> Result<Vec<u8>, NoMemory>
    ensures { IfOk result (λ line. line.items ≡ line_of refusal) }
{
    let mut line = Vec::new(alloc);
    line.extend_from_slice(b"!Refused ")?;
    line.extend_from_slice(refusal.kind.name())?;
    line.extend_from_slice(b" at ")?;
    line.extend_from_slice(Buffer::new().format(refusal.at).as_bytes())?;
    line.push(b'\n')?;
    Ok(line)
}
