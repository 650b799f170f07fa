//! A refusal is printed: `no`, its name and its numbers.
ghost use Rattle.std.specs.Prelude.{◌≡◌, ◌++◌, codes, OnOk};
ghost use Rattle.hfs_language.specs.Text as spec;

use crate::print::push_field;
use hfs_language::Refusal;
use hx_bytes::OutOfMemory;

pub(crate) fn push_refusal(text: &mut Vec<u8>, refusal: &Refusal) -> Result<(), OutOfMemory>
    ensures { OnOk result (text.new.items ≡ text.old.items ++ (codes "no " ++ spec.refusal_name refusal.now ++ spec.fields (spec.refusal_numbers refusal.now))) }
{
    text.extend_from_slice(b"no ")?;
    text.extend_from_slice(name(*refusal).as_bytes())?;
    push_numbers(text, *refusal)
}

fn name(refusal: Refusal) -> &'static str
    ensures { result.now ≡ spec.refusal_name refusal }
{
    match refusal {
        Refusal::TooLong => "TooLong",
        Refusal::BadCommand => "BadCommand",
        Refusal::BadName => "BadName",
        Refusal::NameTooLong => "NameTooLong",
        Refusal::Private => "Private",
        Refusal::Root => "Root",
        Refusal::NotFound => "NotFound",
        Refusal::NotFolder => "NotFolder",
        Refusal::IsFolder => "IsFolder",
        Refusal::Exists => "Exists",
        Refusal::NotEmpty => "NotEmpty",
        Refusal::Inside => "Inside",
        Refusal::TooManyLinks => "TooManyLinks",
        Refusal::TooLarge => "TooLarge",
        Refusal::AttributeTooLarge => "AttributeTooLarge",
        Refusal::NoAttribute => "NoAttribute",
        Refusal::BadTarget => "BadTarget",
        Refusal::NoTree => "NoTree",
        Refusal::NoIds(_) => "NoIds",
        Refusal::TooDeep(_) => "TooDeep",
        Refusal::OverflowFull(_) => "OverflowFull",
        Refusal::NoSpace(_, _) => "NoSpace",
        Refusal::NoRun(_, _) => "NoRun",
        Refusal::TooBig(_, _) => "TooBig",
        Refusal::OutOfMemory => "OutOfMemory",
        Refusal::Unsteady => "Unsteady",
    }
}

fn push_numbers(text: &mut Vec<u8>, refusal: Refusal) -> Result<(), OutOfMemory>
    ensures { OnOk result (text.new.items ≡ text.old.items ++ spec.fields (spec.refusal_numbers refusal)) }
{
    match refusal {
        Refusal::NoIds(a) | Refusal::TooDeep(a) | Refusal::OverflowFull(a) => push_one(text, a),
        Refusal::NoSpace(a, b) | Refusal::NoRun(a, b) | Refusal::TooBig(a, b) => {
            push_two(text, a, b)
        }
        _ => Ok(()),
    }
}

fn push_one(text: &mut Vec<u8>, a: u64) -> Result<(), OutOfMemory>
    ensures { OnOk result (text.new.items ≡ text.old.items ++ spec.field a) }
{
    push_field(text, a)?;
    Ok(())
}

fn push_two(text: &mut Vec<u8>, a: u64, b: u64) -> Result<(), OutOfMemory>
    ensures { OnOk result (text.new.items ≡ text.old.items ++ (spec.field a ++ spec.field b)) }
{
    push_field(text, a)?;
    push_field(text, b)?;
    Ok(())
}
