// The descriptors of a configuration, printed one a line.
#![tactic(auto)]

ghost use Rattle.std.specs.Prelude.{◌≡◌, ◌≤◌, length, IfOk};
ghost use Rattle.descriptor.specs.Walk.{walk_of};
ghost use Rattle.descriptorlisting.specs.Turn.{turn_of};

use descriptor::walk::{Descriptor, Endpoint, answer_at, descriptor_at};
use input::{TOO_LONG, is_too_long};
use printing::{print_byte, print_decimal, print_end, print_number, print_refused, print_text};
use std::io::Write;
use std::{fmt, io};

// The descriptor types of USB 2.0 table 9-5.
#[derive(Clone, Copy)]
enum DescriptorType {
    Device,
    Configuration,
    String,
    Interface,
    Endpoint,
    DeviceQualifier,
    OtherSpeedConfiguration,
    InterfacePower,
}

impl fmt::Display for DescriptorType {
    fn fmt<W: fmt::Write>(&self, f: &mut fmt::Formatter<W>) -> fmt::Result {
        f.write_str(match self {
            DescriptorType::Device => "device",
            DescriptorType::Configuration => "configuration",
            DescriptorType::String => "string",
            DescriptorType::Interface => "interface",
            DescriptorType::Endpoint => "endpoint",
            DescriptorType::DeviceQualifier => "device_qualifier",
            DescriptorType::OtherSpeedConfiguration => "other_speed_configuration",
            DescriptorType::InterfacePower => "interface_power",
        })
    }
}

// The type that a bDescriptorType names.
fn type_of(number: u8) -> Option<DescriptorType> {
    match number {
        1 => Some(DescriptorType::Device),
        2 => Some(DescriptorType::Configuration),
        3 => Some(DescriptorType::String),
        4 => Some(DescriptorType::Interface),
        5 => Some(DescriptorType::Endpoint),
        6 => Some(DescriptorType::DeviceQualifier),
        7 => Some(DescriptorType::OtherSpeedConfiguration),
        8 => Some(DescriptorType::InterfacePower),
        _ => None,
    }
}

// A space, `0x` and two digits.
fn print_hex_byte<W: Write>(out: &mut W, b: u8) -> io::Result<()> {
    print_text(out, b" 0x")?;
    print_byte(out, b)
}

// A bDescriptorType by its name, or its number where it has none.
fn print_type<W: Write>(out: &mut W, number: u8) -> io::Result<()> {
    match type_of(number) {
        Some(named) => write!(out, " {named}"),
        None => print_hex_byte(out, number),
    }
}

// Its direction is bit 7 of bEndpointAddress.
fn print_endpoint<W: Write>(out: &mut W, e: Endpoint) -> io::Result<()> {
    let direction = if e.address < 128 { " out " } else { " in " };
    print_hex_byte(out, e.address)?;
    write!(out, "{direction}{}", e.kind)?;
    print_number(out, e.size as usize)?;
    print_number(out, e.interval as usize)
}

// Position, length and type, and an endpoint's fields.
fn print_descriptor<W: Write>(
    out: &mut W,
    at: usize,
    part: &[u8],
    found: Descriptor,
) -> io::Result<()>
    requires { 2 ≤ length part.now }
{
    print_decimal(out, at as u64)?;
    print_number(out, part.len())?;
    print_type(out, part[1])?;
    if let Some(e) = found.endpoint {
        print_endpoint(out, e)?;
    }
    print_text(out, b"\n")
}

// What the walk answers at a position, and the next one; `count` descriptors are listed already.
fn print_at<W: Write>(
    out: &mut W,
    bytes: &[u8],
    at: usize,
    count: usize,
) -> io::Result<Option<usize>>
    ensures { IfOk result (λ turn. turn ≡ turn_of at (walk_of bytes.now at)) }
{
    match answer_at(bytes, at) {
        Ok(Some(found)) => {
            let part = descriptor_at(bytes, at);
            print_descriptor(out, at, part, found)?;
            Ok(Some(at + part.len()))
        }
        Ok(None) => {
            print_end(out, count)?;
            Ok(None)
        }
        Err(refusal) => {
            print_refused(out, u8::from(refusal))?;
            Ok(None)
        }
    }
}

// The walk from position 0 on: each descriptor's length tells the next position.
#[tactic(auto, using(crate::proofs::Turning::more_inside))]
fn print_walk<W: Write>(out: &mut W, bytes: &[u8]) -> io::Result<()> {
    let mut at: usize = 0;
    let mut count: usize = 0;
    while let Some(next) = print_at(out, bytes, at, count)? {
        at = next;
        count += 1;
    }
    Ok(())
}

// Lists a configuration's descriptors, or says that it is too long.
pub fn print_configuration<W: Write>(out: &mut W, bytes: &[u8]) -> io::Result<()> {
    if is_too_long(bytes) {
        print_refused(out, TOO_LONG)
    } else {
        print_walk(out, bytes)
    }
}
