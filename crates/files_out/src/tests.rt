//! Paths, dates and modes, as the system's `date` and `stat` tell them.
use crate::listing::list_line;
use crate::moment::moment;
use crate::path_of;
use crate::shown::{shown_path, word_of_name};
use files_talk::Facts;
use salvage_tree::Extra;
use std::alloc::{AllocError, Global};
use std::process::Abort;
use std::test::Fail;

// How the names of a path of the user are spelled in a line.
fn is_read(rt: &impl Abort, alloc: Global, path: &str, wanted: &[&str]) -> Result<(), AllocError> {
    match path_of(alloc, path)? {
        Ok(path) => {
            assert_eq!(rt; path.len(), wanted.len());
            for (name, word) in path.as_slice().iter().zip(wanted.iter()) {
                let spelled = word_of_name(alloc, name)?;
                assert_eq!(rt; spelled.as_str(), *word);
            }
        }
        Err(_lack) => assert!(rt; false),
    }
    Ok(())
}

#[test]
fn a_path_of_the_user_is_that_of_a_line(rt: HostRuntime) -> Result<(), Fail> {
    is_read(&rt, rt.alloc(), "/a b/c/", &["a%u0020b", "c"])?;
    is_read(&rt, rt.alloc(), "/", &[])?;
    Ok(())
}

// A path as it is shown.
fn is_shown(rt: &impl Abort, alloc: Global, path: &str, wanted: &str) -> Result<(), AllocError> {
    match path_of(alloc, path)? {
        Ok(path) => {
            let shown = shown_path(alloc, &path)?;
            assert_eq!(rt; shown.as_str(), wanted);
        }
        Err(_lack) => assert!(rt; false),
    }
    Ok(())
}

#[test]
fn paths_are_shown_as_they_may_be_given_back(rt: HostRuntime) -> Result<(), Fail> {
    is_shown(&rt, rt.alloc(), "/", "/")?;
    is_shown(&rt, rt.alloc(), "/a%u0020b/50%%", "/a b/50%%")?;
    is_shown(&rt, rt.alloc(), "/e\u{301}", "/\u{e9}")?;
    is_shown(&rt, rt.alloc(), "/%u00E9", "/%u00E9")?;
    is_shown(&rt, rt.alloc(), "/a%u000Ab", "/a%u000Ab")?;
    Ok(())
}

// A date as it is told.
fn is_told(rt: &impl Abort, alloc: Global, date: u32, wanted: &str) -> Result<(), AllocError> {
    let told = moment(alloc, date)?;
    assert_eq!(rt; told.as_str(), wanted);
    Ok(())
}

#[test]
fn dates_are_those_of_the_calendar(rt: HostRuntime) -> Result<(), Fail> {
    is_told(&rt, rt.alloc(), 0, "1904-01-01 00:00:00")?;
    is_told(&rt, rt.alloc(), 3_034_670_400, "2000-02-29 12:00:00")?;
    is_told(&rt, rt.alloc(), 3_782_844_800, "2023-11-14 22:13:20")?;
    is_told(&rt, rt.alloc(), 4_294_967_295, "2040-02-06 06:28:15")?;
    Ok(())
}

// The line of a file with a mode.
fn line(alloc: Global, mode: u32) -> Result<String, AllocError> {
    let facts = Facts {
        folder: false,
        id: 20,
        size: 6,
        links: 2,
        mode,
        created: 0,
        changed: 3_782_844_800,
    };
    list_line(alloc, "/a", &facts, &Extra::none(), true)
}

#[test]
fn modes_are_told_by_letters(rt: HostRuntime) -> Result<(), Fail> {
    let special = line(rt.alloc(), 0o4750)?;
    assert_eq!(rt;
        special.as_str(),
        "-rwsr-x---    2            6 2023-11-14 22:13:20 /a\n"
    );
    let group = line(rt.alloc(), 0o2701)?;
    assert!(rt; group.as_str().starts_with("-rwx--S--x "));
    let sticky = line(rt.alloc(), 0o1666)?;
    assert!(rt; sticky.as_str().starts_with("-rw-rw-rwT "));
    Ok(())
}
