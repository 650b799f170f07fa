//! A reply is printed as a line.
ghost use Rattle.std.specs.Prelude.{◌≡◌, ◌++◌, ◌+◌, ◌<◌, codes, length, IfOk, OnOk};
ghost use Rattle.std.specs.List.{flat_map};
ghost use Rattle.hfs_language.specs.Text as spec;

use crate::print::{push_bytes, push_field};
use crate::refusal::push_refusal;
use hfs_language::{Facts, Gauge, ListedName, Listing, Reply, TreeGauge};
use hx_bytes::{Bytes, OutOfMemory};
use name_text::print_component;
use std::alloc::Global;

/// The text of a reply: one line with its newline, and no other newline.
#[tactic(auto, unfolding(hfs_language::specs::Text::reply_text))]
pub fn print_reply(alloc: Global, reply: &Reply) -> Result<Bytes, OutOfMemory>
    ensures { IfOk result (λ text. text ≡ spec.reply_text reply.now) }
{
    let mut text = Vec::new(alloc);
    push_body(alloc, &mut text, reply)?;
    text.push(b'\n')?;
    Ok(Bytes::from_vec(text))
}

fn push_body(alloc: Global, text: &mut Vec<u8>, reply: &Reply) -> Result<(), OutOfMemory>
    ensures { OnOk result (text.new.items ≡ text.old.items ++ spec.body_text reply.now) }
{
    match reply {
        Reply::Ok => push(text, b"ok"),
        Reply::Listing(names) => push_listing(alloc, text, names),
        Reply::Facts(facts) => push_facts(text, facts),
        Reply::Content(value) => push_content(text, value),
        Reply::Gauge(gauge) => push_gauge(text, gauge),
        Reply::No(refusal) => push_refusal(text, refusal),
    }
}

fn push(text: &mut Vec<u8>, bytes: &[u8]) -> Result<(), OutOfMemory>
    ensures { OnOk result (text.new.items ≡ text.old.items ++ bytes.now) }
{
    text.extend_from_slice(bytes)?;
    Ok(())
}

fn push_number(text: &mut Vec<u8>, number: u64) -> Result<(), OutOfMemory>
    ensures { OnOk result (text.new.items ≡ text.old.items ++ spec.field number) }
{
    push_field(text, number)?;
    Ok(())
}

/// The number of names, and then the names.
fn push_listing(alloc: Global, text: &mut Vec<u8>, names: &Listing) -> Result<(), OutOfMemory>
    ensures { OnOk result (text.new.items ≡ text.old.items ++ (codes "ok" ++ spec.field (length names.now) ++ flat_map spec.listed_text names.now)) }
{
    push(text, b"ok")?;
    push_number(text, names.len() as u64)?;
    push_names(alloc, text, names.as_slice())
}

fn push_names(alloc: Global, text: &mut Vec<u8>, names: &[ListedName]) -> Result<(), OutOfMemory>
    ensures { OnOk result (text.new.items ≡ text.old.items ++ flat_map spec.listed_text names.now) }
{
    for name in names {
        push_name(alloc, text, name)?;
    }
    Ok(())
}

/// A name with a space in front, that of a folder with a slash behind it.
fn push_name(alloc: Global, text: &mut Vec<u8>, listed: &ListedName) -> Result<(), OutOfMemory>
    ensures { OnOk result (text.new.items ≡ text.old.items ++ spec.listed_text listed.now) }
{
    let name = print_component(alloc, &listed.name)?;
    push(text, b" ")?;
    push(text, name.as_bytes())?;
    if listed.folder {
        push(text, b"/")
    } else {
        Ok(())
    }
}

/// The bytes of a file or the value of an attribute.
fn push_content(text: &mut Vec<u8>, value: &Bytes) -> Result<(), OutOfMemory>
    ensures { OnOk result (text.new.items ≡ text.old.items ++ (codes "ok " ++ spec.value_text value.now)) }
{
    push(text, b"ok =")?;
    push_bytes(text, value.as_slice())?;
    Ok(())
}

fn push_facts(text: &mut Vec<u8>, facts: &Facts) -> Result<(), OutOfMemory>
    ensures { OnOk result (text.new.items ≡ text.old.items ++ (codes "ok" ++ spec.facts_text facts.now)) }
{
    push(text, b"ok")?;
    push_kind(text, facts)?;
    push_number(text, u64::from(facts.id))?;
    push_size(text, facts)?;
    push(text, b" ")?;
    push_mode(text, facts.mode)?;
    push_number(text, u64::from(facts.created))?;
    push_number(text, u64::from(facts.changed))?;
    push_number(text, u64::from(facts.attribute))
}

fn push_kind(text: &mut Vec<u8>, facts: &Facts) -> Result<(), OutOfMemory>
    ensures { OnOk result (text.new.items ≡ text.old.items ++ spec.kind_text facts.now) }
{
    if facts.folder {
        push(text, b" folder")
    } else {
        push(text, b" file")
    }
}

/// A folder has no links to tell.
fn push_size(text: &mut Vec<u8>, facts: &Facts) -> Result<(), OutOfMemory>
    ensures { OnOk result (text.new.items ≡ text.old.items ++ spec.size_fields facts.now) }
{
    if facts.folder {
        push_number(text, facts.size)
    } else {
        push_number(text, facts.size)?;
        push_number(text, u64::from(facts.links))
    }
}

/// A mode in four octal digits.
fn push_mode(text: &mut Vec<u8>, mode: u16) -> Result<(), OutOfMemory>
    ensures { OnOk result (text.new.items ≡ text.old.items ++ spec.mode_text mode) }
{
    push(
        text,
        &[
            octal_digit(mode / 512 % 8),
            octal_digit(mode / 64 % 8),
            octal_digit(mode / 8 % 8),
            octal_digit(mode % 8),
        ],
    )
}

fn octal_digit(value: u16) -> u8
    requires { value < 8 }
    ensures { result ≡ 48 + value }
{
    b'0' + value as u8
}

fn push_gauge(text: &mut Vec<u8>, gauge: &Gauge) -> Result<(), OutOfMemory>
    ensures { OnOk result (text.new.items ≡ text.old.items ++ (codes "ok" ++ spec.gauge_text gauge.now)) }
{
    push(text, b"ok")?;
    push_number(text, u64::from(gauge.block))?;
    push_number(text, u64::from(gauge.total))?;
    push_number(text, u64::from(gauge.free))?;
    push_number(text, u64::from(gauge.longest))?;
    push_number(text, gauge.capacity)?;
    push_trees(text, &gauge.trees)
}

fn push_trees(text: &mut Vec<u8>, trees: &[TreeGauge]) -> Result<(), OutOfMemory>
    ensures { OnOk result (text.new.items ≡ text.old.items ++ flat_map spec.tree_text trees.now) }
{
    for tree in trees {
        push_tree(text, tree)?;
    }
    Ok(())
}

fn push_tree(text: &mut Vec<u8>, tree: &TreeGauge) -> Result<(), OutOfMemory>
    ensures { OnOk result (text.new.items ≡ text.old.items ++ spec.tree_text tree.now) }
{
    push_number(text, u64::from(tree.depth))?;
    push_number(text, u64::from(tree.nodes))?;
    push_number(text, u64::from(tree.unused))
}
