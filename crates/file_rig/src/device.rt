//! Block devices: what a loop device stands on, and who uses a device, as far as the system's tables say.

use crate::identity::Identity;
use std::alloc::AllocError;
use std::{fs, io};

/// The most layers of loop devices over files that are looked through.
const MOST_LAYERS: usize = 8;

/// A file or a device on which a loop device stands.
#[derive(Drop)]
pub(crate) struct Layer {
    pub(crate) path: String,
    pub(crate) identity: Identity,
}

/// What a block device stands on: the file behind a loop device, what that one stands on, and so on.
pub(crate) fn layers_below(rt: &HostRuntime, top: Identity) -> io::Result<Vec<Layer>> {
    let mut layers = Vec::new(rt.alloc());
    let mut now = top;
    for _ in 0..MOST_LAYERS {
        match layer_below(rt, now)? {
            Some(layer) => {
                now = layer.identity;
                layers.push(layer)?;
            }
            None => break,
        }
    }
    Ok(layers)
}

// The file behind a loop device, or behind the loop device of which this is a part, where there is one that has a name.
fn layer_below(rt: &HostRuntime, device: Identity) -> io::Result<Option<Layer>> {
    let Identity::Device { number } = device else {
        return Ok(None);
    };
    let device = spelled(rt, number)?;
    file_behind(rt, device.as_str())
}

// The same of a device that the system's tables spell.
fn file_behind(rt: &HostRuntime, device: &str) -> io::Result<Option<Layer>> {
    let whole = format!(in rt.alloc(); "/sys/dev/block/{device}/loop/backing_file")?;
    let of_part = format!(in rt.alloc(); "/sys/dev/block/{device}/../loop/backing_file")?;
    for table in [whole.as_str(), of_part.as_str()] {
        if let Some(text) = text_of(rt, table)? {
            let path = String::from_str(rt.alloc(), text.trim_end_matches('\n'))?;
            if let Ok(found) = fs::metadata(rt, path.as_str()) {
                let identity = Identity::of(&found);
                return Ok(Some(Layer { path, identity }));
            }
        }
    }
    Ok(None)
}

/// Who uses a file or a block device, if anyone does: a file system that is mounted, swap space, or another device. Each stands on it, on a
/// device over it, on a part of it, or on the whole of which it is a part.
pub(crate) fn user_of(rt: &HostRuntime, image: Identity) -> io::Result<Option<&'static str>> {
    if let Some(mounts) = text_of(rt, "/proc/self/mountinfo")? {
        for line in mounts.lines() {
            if let Some(device) = mounted_device(rt, line)? {
                if shares(rt, device.as_str(), image)? {
                    return Ok(Some("it is in use: it is mounted"));
                }
            }
        }
    }
    if let Some(swaps) = text_of(rt, "/proc/swaps")? {
        for line in swaps.lines() {
            if let Some(device) = device_at(rt, line.split(' ').next())? {
                if shares(rt, device.as_str(), image)? {
                    return Ok(Some("it is in use as swap space"));
                }
            }
        }
    }
    if let Identity::Device { number } = image {
        let device = spelled(rt, number)?;
        let holders = format!(in rt.alloc(); "/sys/dev/block/{device}/holders")?;
        if let Ok(mut names) = fs::read_dir(rt, holders.as_str()) {
            if names.next().is_some() {
                return Ok(Some("it is in use: another device stands on it"));
            }
        }
    }
    Ok(None)
}

// The device of a line of the table of mounts, whose third word it is. A file system without a number there names its device as its
// source, two words behind a dash.
fn mounted_device(rt: &HostRuntime, line: &str) -> io::Result<Option<String>> {
    let mut words = line.split(' ');
    let _ = words.next();
    let _ = words.next();
    let Some(device) = words.next() else {
        return Ok(None);
    };
    if !device.starts_with("0:") {
        return Ok(Some(String::from_str(rt.alloc(), device)?));
    }
    for word in &mut words {
        if word == "-" {
            break;
        }
    }
    let _ = words.next();
    device_at(rt, words.next())
}

// The number of the block device at a path, if there is one.
fn device_at(rt: &HostRuntime, path: Option<&str>) -> io::Result<Option<String>> {
    let Some(path) = path else {
        return Ok(None);
    };
    if !path.starts_with('/') {
        return Ok(None);
    }
    let Ok(found) = fs::metadata(rt, path) else {
        return Ok(None);
    };
    match Identity::of(&found) {
        Identity::Device { number } => Ok(Some(spelled(rt, number)?)),
        Identity::File { .. } => Ok(None),
    }
}

// Whether a device and an image have bytes in common: the device is the image or stands on it, or one is a part of the other.
fn shares(rt: &HostRuntime, device: &str, image: Identity) -> io::Result<bool> {
    if let Identity::Device { number } = image {
        let ours = spelled(rt, number)?;
        if ours.as_str() == device || is_part(rt, device, ours.as_str())? {
            return Ok(true);
        }
    }
    match file_behind(rt, device)? {
        Some(layer) => {
            if layer.identity == image {
                return Ok(true);
            }
            for lower in layers_below(rt, layer.identity)?.iter() {
                if lower.identity == image {
                    return Ok(true);
                }
            }
            Ok(false)
        }
        None => Ok(false),
    }
}

// Whether one of two devices is a part of the other: its folder lies in the other's.
fn is_part(rt: &HostRuntime, one: &str, other: &str) -> io::Result<bool> {
    let one = format!(in rt.alloc(); "/sys/dev/block/{one}")?;
    let other = format!(in rt.alloc(); "/sys/dev/block/{other}")?;
    let (Ok(one), Ok(other)) = (
        fs::canonicalize(rt, one.as_str()),
        fs::canonicalize(rt, other.as_str()),
    ) else {
        return Ok(false);
    };
    let one = format!(in rt.alloc(); "{}/", one.as_str())?;
    let other = format!(in rt.alloc(); "{}/", other.as_str())?;
    Ok(one.starts_with(other.as_str()) || other.starts_with(one.as_str()))
}

// A device's number as the system's tables spell it.
fn spelled(rt: &HostRuntime, number: u64) -> Result<String, AllocError> {
    let major = ((number >> 8) & 0xfff) | ((number >> 32) & 0xffff_f000);
    let minor = (number & 0xff) | ((number >> 12) & 0xffff_ff00);
    format!(in rt.alloc(); "{major}:{minor}")
}

// A table of the system's, if there is one; a byte that is no text is another letter in it.
fn text_of(rt: &HostRuntime, path: &str) -> io::Result<Option<String>> {
    match fs::read(rt, path) {
        Ok(bytes) => Ok(Some(String::from_utf8_lossy(rt.alloc(), bytes.as_slice())?)),
        Err(_) => Ok(None),
    }
}
