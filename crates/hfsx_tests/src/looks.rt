// What a look at a volume is answered, and that it writes nothing.
use crate::counting::Counting;
use cmd_lang::print_reply;
use hfs_language::{Command, Path, Reply};
use hfsx_server::{Status, look};
use hx_bytes::{OutOfMemory, Units};
use mem_disk::MemRig;
use std::alloc::{AllocError, Global};
use std::test::Fail;
use test_kit::{fresh_rig, run_on};
use volume_look::Asker;

/// Asks commands, the last of its list first, and keeps the texts of the replies. It tells no contract of them.
#[derive(Drop)]
struct Questions {
    alloc: Global,
    commands: Vec<Command>,
    texts: Vec<u8>,
}

impl Asker for Questions {
    ghost use Rattle.std.specs.Prelude.{[], false};

    ghost state = { λ _. record { tells = false; asked = []; heard = []; ended = false } };

    fn ask(&mut self) -> Result<Option<Command>, AllocError> {
        Ok(self.commands.pop())
    }

    fn hear(&mut self, _command: Command, reply: Reply) -> Result<(), AllocError> {
        match print_reply(self.alloc, &reply) {
            Ok(text) => self.texts.extend_from_slice(text.as_slice()),
            Err(OutOfMemory) => Err(AllocError),
        }
    }
}

// The path of `/a`.
fn path(alloc: Global) -> Result<Path, AllocError> {
    let name = Units::from_vec(Vec::from_slice(alloc, &[0x61])?);
    let mut names = Vec::new(alloc);
    names.push(name)?;
    Ok(Path::from_vec(names))
}

// Five commands, of which the one that is asked last would change the volume.
fn five_commands(alloc: Global) -> Result<Questions, AllocError> {
    let mut commands = Vec::new(alloc);
    commands.push(Command::Mkdir(path(alloc)?))?;
    commands.push(Command::LsAttr(path(alloc)?))?;
    commands.push(Command::Read {
        path: path(alloc)?,
        from: 1,
        length: 65_537,
    })?;
    commands.push(Command::Read {
        path: path(alloc)?,
        from: 1,
        length: 65_536,
    })?;
    commands.push(Command::Ls(Path::new(alloc)))?;
    Ok(Questions {
        alloc,
        commands,
        texts: Vec::new(alloc),
    })
}

#[test]
fn a_look_is_answered_as_a_run(rt: HostRuntime) -> Result<(), Fail> {
    let alloc = rt.alloc();
    let mut rig = fresh_rig(alloc)?;
    assert_eq!(rt;
        run_on(
            alloc,
            "run v.img",
            &mut rig,
            b"create /a\nwrite /a 0 =hello\n"
        )?,
        Status::Done
    );
    let mut counting = Counting::over(rig);
    let mut asker = five_commands(alloc)?;
    assert_eq!(rt; look(alloc, &mut counting, &mut asker), Status::Done);
    assert_eq!(rt;
        asker.texts.as_slice(),
        b"ok 1 a\nok =ello\nno TooLarge\nok 0\nno BadCommand\n".as_slice()
    );
    assert_eq!(rt; counting.barriers, 0);
    Ok(())
}

#[test]
fn what_no_run_serves_is_not_looked_at(rt: HostRuntime) -> Result<(), Fail> {
    let alloc = rt.alloc();
    let mut rig = MemRig::new(alloc, 16_384)?;
    let mut asker = five_commands(alloc)?;
    assert_eq!(rt; look(alloc, &mut rig, &mut asker), Status::Refused);
    assert_eq!(rt; rig.told(), b"refused NotHfsx 0 0\n".as_slice());
    assert!(rt; asker.texts.is_empty());
    Ok(())
}
