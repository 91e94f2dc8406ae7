// Case files made of pieces, and what reading them comes to.
use casefile::answers::Answers;
use casefile::running::run;
use faults::fault::{FileFault, Layer};
use reader::reader::Reader;
use std::alloc::{AllocError, Global};

// A piece of a file: a field, a part of one, or a group of fields.
#[derive(Clone, Copy, Debug)]
pub(crate) enum Piece {
    Byte(u8),
    // A field's tag and length.
    Head(u8, u16),
    // A size, a price and a set of allowed counts.
    Kind(u16, u16, u64),
    Band(u16, u16),
    // A list of three totals.
    List(u16, u16, u16),
    // A modulus and a remainder.
    Stride(u16, u16),
    // A kind and a count.
    RuleOut(u8, u8),
    End,
    // So many kinds of size 1 with counts 0 and 1.
    Kinds(u8),
    // Four kinds of sizes 2, 3, 4, 5, each at most once, and a band: 67 bytes.
    FourKinds(u16, u16),
    // One kind of which each load is above the band: 15 bytes, and the band 7.
    NoLoad,
}

fn write_head(file: &mut Vec<u8>, tag: u8, len: u16) -> Result<(), AllocError> {
    file.push(tag)?;
    file.extend_from_slice(&len.to_be_bytes())
}

// A field of so many bytes that holds numbers of two bytes.
fn write_field(file: &mut Vec<u8>, tag: u8, len: u16, numbers: &[u16]) -> Result<(), AllocError> {
    write_head(file, tag, len)?;
    for number in numbers {
        file.extend_from_slice(&number.to_be_bytes())?;
    }
    Ok(())
}

fn write_kind(file: &mut Vec<u8>, size: u16, price: u16, set: u64) -> Result<(), AllocError> {
    write_head(file, 1, 12)?;
    file.extend_from_slice(&size.to_be_bytes())?;
    file.extend_from_slice(&price.to_be_bytes())?;
    file.extend_from_slice(&set.to_be_bytes())
}

fn write_four_kinds(file: &mut Vec<u8>, low: u16, high: u16) -> Result<(), AllocError> {
    for (size, price) in [(2, 20), (3, 25), (4, 35), (5, 40)] {
        write_kind(file, size, price, 0b11)?;
    }
    write_field(file, 2, 4, &[low, high])
}

impl Piece {
    fn write(self, file: &mut Vec<u8>) -> Result<(), AllocError> {
        match self {
            Piece::Byte(byte) => Ok(file.push(byte)?),
            Piece::Head(tag, len) => write_head(file, tag, len),
            Piece::Kind(size, price, set) => write_kind(file, size, price, set),
            Piece::Band(low, high) => write_field(file, 2, 4, &[low, high]),
            Piece::List(a, b, c) => write_field(file, 3, 6, &[a, b, c]),
            Piece::Stride(modulus, remainder) => write_field(file, 4, 4, &[modulus, remainder]),
            Piece::RuleOut(kind, count) => {
                write_head(file, 5, 2)?;
                file.extend_from_slice(&[kind, count])
            }
            Piece::End => write_head(file, 0, 0),
            Piece::Kinds(many) => {
                for _ in 0..many {
                    write_kind(file, 1, 0, 3)?;
                }
                Ok(())
            }
            Piece::FourKinds(low, high) => write_four_kinds(file, low, high),
            Piece::NoLoad => {
                write_kind(file, 7, 0, 0b10)?;
                write_field(file, 2, 4, &[0, 0])
            }
        }
    }
}

// The bytes of the pieces, one after the other.
pub(crate) fn file_of(alloc: Global, pieces: &[Piece]) -> Result<Vec<u8>, AllocError> {
    let mut file = Vec::new(alloc);
    for piece in pieces {
        piece.write(&mut file)?;
    }
    Ok(file)
}

// A fault as it is told: its layer, place and number.
#[derive(Clone, Copy, PartialEq, Debug)]
pub(crate) struct Told {
    layer: Layer,
    place: usize,
    number: u8,
}

// That a file is not read.
pub(crate) fn fault(layer: Layer, place: usize, number: u8) -> Result<(), Told> {
    Err(Told {
        layer,
        place,
        number,
    })
}

// What reading the bytes comes to, with tables of 4,096 cells.
pub(crate) fn read(file: &[u8]) -> Result<(), Told> {
    let mut reader = Reader::new();
    let mut answers = Answers::new();
    let mut forward = [7u8; 4096];
    let mut backward = [7u8; 4096];
    run(file, &mut reader, &mut forward, &mut backward, &mut answers).map_err(|fault| Told {
        layer: fault.layer(),
        place: fault.place(),
        number: fault.number(),
    })
}

// The place of the first row whose file has another outcome, if there is one.
pub(crate) fn first_other(
    alloc: Global,
    rows: &[(&[Piece], Result<(), Told>)],
) -> Result<Option<usize>, AllocError> {
    for (place, (pieces, outcome)) in rows.iter().enumerate() {
        let file = file_of(alloc, pieces)?;
        if read(&file) != *outcome {
            return Ok(Some(place));
        }
    }
    Ok(None)
}
