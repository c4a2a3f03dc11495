//! An enum of three variants. It is written as a tag of two bytes, and the fields of the
//! variant after it.

ghost use Rattle.std.specs.Prelude.{refl};
ghost use Rattle.nano_meaning.proofs.AgreesLaws.{agreed};
ghost use Rattle.test_types.specs.CommandCodecs.{command_codec};

use nano_bin::{BinCodec, DeBin, DeBinErr, DeBinKind, SerBin, append_part};
use nano_value::Value;
use std::alloc::{AllocError, Global};

/// A command to a device.
#[derive(PartialEq, Debug, Drop)]
pub enum Command {
    /// Tag 0: stop.
    Stop,
    /// Tag 1: move by so many steps, under a name.
    Move(u32, String),
    /// Tag 2: wait for so many milliseconds.
    Wait(u64),
}

impl Value for Command {
    ghost means = { command_codec.canonical.means };

    ghost legal = { command_codec.encoding.legal };

    fn known(&self) {
        match self {
            Command::Stop => ().known(),
            Command::Move(steps, name) => {
                steps.known();
                name.known();
            }
            Command::Wait(time) => time.known(),
        }
    }
}

impl BinCodec for Command {
    ghost bin = { command_codec };

    ghost agrees = { agreed };
}

impl SerBin for Command {
    fn ser_bin(&self, alloc: Global, output: &mut Vec<u8>) -> Result<(), AllocError> {
        let start = output.len();
        match self {
            Command::Stop => {
                0u16.ser_bin(alloc, output)?;
                append_part(alloc, &(), output, start)
            }
            Command::Move(steps, name) => {
                1u16.ser_bin(alloc, output)?;
                append_part(alloc, steps, output, start)?;
                append_part(alloc, name, output, start)
            }
            Command::Wait(time) => {
                2u16.ser_bin(alloc, output)?;
                append_part(alloc, time, output, start)
            }
        }
    }
}

impl DeBin for Command {
    ghost is_decodable = { refl };

    fn de_bin(alloc: Global, offset: &mut usize, bytes: &[u8]) -> Result<Command, DeBinErr> {
        let start = *offset;
        let mut at = start;
        let command = match u16::de_bin(alloc, &mut at, bytes)? {
            0 => Command::Stop,
            1 => {
                let (steps, name) = <(u32, String)>::de_bin(alloc, &mut at, bytes)?;
                Command::Move(steps, name)
            }
            2 => {
                let time = u64::de_bin(alloc, &mut at, bytes)?;
                Command::Wait(time)
            }
            _ => {
                return Err(DeBinErr {
                    o: start,
                    l: 0,
                    s: bytes.len(),
                    kind: DeBinKind::Own,
                });
            }
        };
        *offset = at;
        Ok(command)
    }
}
