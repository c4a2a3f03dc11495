//! An enum of each shape in JSON: a name, a name with a tuple, with one part, with named fields.

ghost use Rattle.std.specs.Prelude.{codes};
ghost use Rattle.nano_meaning.proofs.AgreesLaws.{agreed};
ghost use Rattle.test_types.specs.MessageCodecs.{message_codec};

use nano_json::{DeJson, DeJsonErr, DeJsonState, JsonCodec, SerJson, SerJsonState};
use nano_json_schema::{
    Part, VariantName, read_content, read_fields_content, read_variant_name, unknown_variant,
    write_fields_variant, write_unit_variant, write_variant,
};
use nano_schema::{Label, Required};
use nano_value::Value;
use std::alloc::{AllocError, Global};
use std::str::Chars;

/// What one device tells another.
#[derive(PartialEq, Debug, Drop)]
pub enum Message {
    /// A greeting.
    Hello,
    /// Move by so many steps, under a name.
    Move(i32, String),
    /// Wait for so many milliseconds.
    Wait(u64),
    /// Say a text.
    Say {
        /// The text.
        text: String,
        /// How often.
        times: u32,
    },
}

/// The name `text`.
#[derive(Drop)]
struct SayText {}

impl Label for SayText {
    ghost label = { codes "text" };

    fn text() -> &'static str {
        "text"
    }
}

/// The name `times`.
#[derive(Drop)]
struct SayTimes {}

impl Label for SayTimes {
    ghost label = { codes "times" };

    fn text() -> &'static str {
        "times"
    }
}

type SayFields = (Required<SayText, String>, Required<SayTimes, u32>);

impl Value for Message {
    ghost means = { message_codec.canonical.means };

    ghost legal = { message_codec.encoding.legal };

    fn known(&self) {
        match self {
            Message::Hello => {}
            Message::Move(by, name) => {
                by.known();
                name.known();
            }
            Message::Wait(time) => time.known(),
            Message::Say { text, times } => {
                text.known();
                times.known();
            }
        }
    }
}

impl JsonCodec for Message {
    ghost json = { message_codec };

    ghost agrees = { agreed };
}

impl DeJson for Message {
    fn de_json(
        alloc: Global,
        state: &mut DeJsonState,
        input: &mut Chars<'_>,
    ) -> Result<Message, DeJsonErr> {
        match read_variant_name(alloc, state, input)? {
            VariantName::Unit(name) => match name.as_str() {
                "Hello" => Ok(Message::Hello),
                _ => Err(unknown_variant(alloc, state, name.as_str())),
            },
            VariantName::Content(name) => match name.as_str() {
                "Move" => {
                    let (by, name): (i32, String) = read_content(alloc, state, input)?;
                    Ok(Message::Move(by, name))
                }
                "Wait" => {
                    let [time]: [u64; 1] = read_content(alloc, state, input)?;
                    Ok(Message::Wait(time))
                }
                "Say" => {
                    let (text, times) = read_fields_content::<SayFields>(alloc, state, input)?;
                    Ok(Message::Say { text, times })
                }
                _ => Err(unknown_variant(alloc, state, name.as_str())),
            },
        }
    }
}

impl SerJson for Message {
    fn ser_json(&self, alloc: Global, d: usize, s: &mut SerJsonState) -> Result<(), AllocError> {
        match self {
            Message::Hello => write_unit_variant(alloc, "Hello", s),
            Message::Move(by, name) => {
                write_variant(alloc, "Move", &(Part { of: by }, Part { of: name }), d, s)
            }
            Message::Wait(time) => write_variant(alloc, "Wait", &[Part { of: time }], d, s),
            Message::Say { text, times } => {
                write_fields_variant::<SayFields>("Say", &(text, times), alloc, d, s)
            }
        }
    }
}
