//! A table of whole paths, each with what it names: book kept by hand of what lines do, in another form than the plain tree's.
use crate::wish::{Letters, Wish};
use std::alloc::{AllocError, Global};
use std::fmt::Write;

/// A path, and the place of what it names among the items.
#[derive(Drop)]
struct Row {
    path: Letters,
    item: usize,
}

/// A folder or file, which stays in the table when its last name is gone.
#[derive(Drop)]
struct Item {
    folder: bool,
    id: u64,
    mode: u16,
    created: u32,
    changed: u32,
    marked: u32,
    /// Names, and how many letters each value has.
    attributes: Vec<(u8, u8)>,
    bytes: Vec<u8>,
    linked: bool,
}

/// All paths. The root is the first item, and has no row.
#[derive(Drop)]
pub struct Table {
    rows: Vec<Row>,
    items: Vec<Item>,
    next_id: u64,
    has_private: bool,
    moment: u32,
}

/// The text behind `ok`, or the refusal behind `no`.
type Told = Result<String, &'static str>;

impl Table {
    pub fn new(alloc: Global) -> Result<Table, AllocError> {
        let mut table = Table {
            rows: Vec::new(alloc),
            items: Vec::new(alloc),
            next_id: 2,
            has_private: false,
            moment: 0,
        };
        table.add_item(alloc, true)?;
        table.next_id = 18;
        Ok(table)
    }

    /// A new item under the next id, and its place.
    fn add_item(&mut self, alloc: Global, folder: bool) -> Result<usize, AllocError> {
        let item = Item {
            folder,
            id: self.next_id,
            mode: if folder { 0o755 } else { 0o644 },
            created: self.moment,
            changed: self.moment,
            marked: self.moment,
            attributes: Vec::new(alloc),
            bytes: Vec::new(alloc),
            linked: false,
        };
        let place = self.items.len();
        self.items.push(item)?;
        self.draw(1);
        Ok(place)
    }

    fn draw(&mut self, ids: u64) {
        self.next_id = self.next_id.wrapping_add(ids);
    }

    fn draw_private(&mut self) {
        if !self.has_private {
            self.has_private = true;
            self.draw(1);
        }
    }

    fn find(&self, path: &[u8]) -> Option<usize> {
        if path.is_empty() {
            return Some(0);
        }
        self.rows
            .iter()
            .find(|row| row.path.as_slice() == path)
            .map(|row| row.item)
    }

    fn is_folder(&self, item: usize) -> bool {
        match self.items.get(item) {
            Some(item) => item.folder,
            None => false,
        }
    }

    fn reach(&self, path: &[u8]) -> Result<usize, &'static str> {
        let mut at = 0;
        for (before, _) in path.iter().enumerate() {
            if !self.is_folder(at) {
                return Err("NotFolder");
            }
            match self.find(&path[..before + 1]) {
                Some(item) => at = item,
                None => return Err("NotFound"),
            }
        }
        Ok(at)
    }

    /// The folder of a path's last name.
    fn reach_above(&self, path: &[u8]) -> Result<usize, &'static str> {
        let at = match path.split_last() {
            Some((_, above)) => self.reach(above)?,
            None => return Err("Root"),
        };
        if self.is_folder(at) {
            Ok(at)
        } else {
            Err("NotFolder")
        }
    }

    fn reach_file(&self, path: &[u8]) -> Result<usize, &'static str> {
        let at = self.reach(path)?;
        if self.is_folder(at) {
            Err("IsFolder")
        } else {
            Ok(at)
        }
    }

    fn names_of(&self, item: usize) -> usize {
        self.rows.iter().filter(|row| row.item == item).count()
    }

    fn is_in(path: &[u8], folder: &[u8]) -> bool {
        match path.split_last() {
            Some((_, above)) => above == folder,
            None => false,
        }
    }

    fn count_in(&self, folder: &[u8]) -> usize {
        self.rows
            .iter()
            .filter(|row| Table::is_in(&row.path, folder))
            .count()
    }

    fn touch(&mut self, item: usize) {
        let moment = self.moment;
        if let Some(item) = self.items.get_mut(item) {
            item.changed = moment;
            item.marked = moment;
        }
    }

    fn mark(&mut self, item: usize) {
        let moment = self.moment;
        if let Some(item) = self.items.get_mut(item) {
            item.marked = moment;
        }
    }

    fn add_row(&mut self, alloc: Global, path: &[u8], item: usize) -> Result<(), AllocError> {
        let path = Vec::from_slice(alloc, path)?;
        self.rows.push(Row { path, item })?;
        Ok(())
    }

    fn drop_row(&mut self, path: &[u8]) {
        self.rows.retain(|row| row.path.as_slice() != path);
    }

    fn make(&mut self, alloc: Global, path: &[u8], folder: bool) -> Result<Told, AllocError> {
        let above = match self.reach_above(path) {
            Ok(above) => above,
            Err(why) => return Ok(Err(why)),
        };
        if self.find(path).is_some() {
            return Ok(Err("Exists"));
        }
        let item = self.add_item(alloc, folder)?;
        self.add_row(alloc, path, item)?;
        self.touch(above);
        Ok(Ok(String::new(alloc)))
    }

    fn rm(&mut self, alloc: Global, path: &[u8]) -> Told {
        if path.is_empty() {
            return Err("Root");
        }
        let item = self.reach_file(path)?;
        let above = self.reach_above(path)?;
        self.lose(path, item, above);
        Ok(String::new(alloc))
    }

    /// A file loses a name in a folder.
    fn lose(&mut self, path: &[u8], item: usize, above: usize) {
        self.drop_row(path);
        if self.names_of(item) == 0 {
            self.draw_private();
        } else {
            self.mark(item);
        }
        self.touch(above);
    }

    fn rmdir(&mut self, alloc: Global, path: &[u8]) -> Told {
        if path.is_empty() {
            return Err("Root");
        }
        let item = self.reach(path)?;
        if !self.is_folder(item) {
            return Err("NotFolder");
        }
        if self.count_in(path) != 0 {
            return Err("NotEmpty");
        }
        let above = self.reach_above(path)?;
        self.drop_row(path);
        self.touch(above);
        Ok(String::new(alloc))
    }

    /// Each path that begins with the old one begins with the new one.
    fn rename(&mut self, alloc: Global, from: &[u8], to: &[u8]) -> Result<(), AllocError> {
        for row in self.rows.as_mut_slice() {
            if let Some(rest) = row.path.strip_prefix(from) {
                let mut path = Vec::from_slice(alloc, to)?;
                path.extend_from_slice(rest)?;
                row.path = path;
            }
        }
        Ok(())
    }

    /// The item at a path, and the folder into which another name of it goes.
    fn reach_both(&self, from: &[u8], to: &[u8]) -> Result<(usize, usize), &'static str> {
        if from.is_empty() || to.is_empty() {
            return Err("Root");
        }
        Ok((self.reach(from)?, self.reach_above(to)?))
    }

    fn mv(&mut self, alloc: Global, from: &[u8], to: &[u8]) -> Result<Told, AllocError> {
        let (item, goal) = match self.reach_both(from, to) {
            Ok(ends) => ends,
            Err(why) => return Ok(Err(why)),
        };
        if let Some(other) = self.find(to) {
            if self.is_folder(item) || self.is_folder(other) {
                return Ok(Err("Exists"));
            }
            if other == item {
                return Ok(Ok(String::new(alloc)));
            }
            self.lose(to, other, goal);
        }
        if to.starts_with(from) {
            return Ok(Err("Inside"));
        }
        if let Ok(above) = self.reach_above(from) {
            self.touch(above);
        }
        self.rename(alloc, from, to)?;
        self.touch(goal);
        self.mark(item);
        Ok(Ok(String::new(alloc)))
    }

    fn ln(&mut self, alloc: Global, from: &[u8], to: &[u8]) -> Result<Told, AllocError> {
        let (item, goal) = match self.reach_both(from, to) {
            Ok(ends) => ends,
            Err(why) => return Ok(Err(why)),
        };
        if self.is_folder(item) {
            return Ok(Err("IsFolder"));
        }
        if self.find(to).is_some() {
            return Ok(Err("Exists"));
        }
        self.draw_private();
        let mut ids = 1;
        if let Some(file) = self.items.get_mut(item) {
            if !file.linked {
                ids = 2;
            }
            file.linked = true;
        }
        self.draw(ids);
        self.add_row(alloc, to, item)?;
        self.mark(item);
        self.touch(goal);
        Ok(Ok(String::new(alloc)))
    }

    fn write(
        &mut self,
        alloc: Global,
        path: &[u8],
        from: u64,
        count: u8,
    ) -> Result<Told, AllocError> {
        let item = match self.reach_file(path) {
            Ok(item) => item,
            Err(why) => return Ok(Err(why)),
        };
        if from > (1 << 40) - u64::from(count) {
            return Ok(Err("TooLarge"));
        }
        let moment = self.moment;
        if let Some(file) = self.items.get_mut(item) {
            if count == 0 {
                return Ok(Ok(String::new(alloc)));
            }
            if (file.bytes.len() as u64) < from {
                file.bytes.resize(from as usize, 0)?;
            }
            for k in 0..u64::from(count) {
                match file.bytes.get_mut((from + k) as usize) {
                    Some(byte) => *byte = b'x',
                    None => file.bytes.push(b'x')?,
                }
            }
            file.changed = moment;
            file.marked = moment;
        }
        Ok(Ok(String::new(alloc)))
    }

    fn read(&self, alloc: Global, path: &[u8], from: u64, count: u64) -> Result<Told, AllocError> {
        let item = match self.reach_file(path) {
            Ok(item) => item,
            Err(why) => return Ok(Err(why)),
        };
        if count > 65_536 {
            return Ok(Err("TooLarge"));
        }
        let mut text = String::new(alloc);
        text.push_str(" =")?;
        if let Some(file) = self.items.get(item) {
            for (at, byte) in file.bytes.iter().enumerate() {
                if at as u64 >= from && at as u64 - from < count {
                    text.push_str(if *byte == 0 { "%00" } else { "x" })?;
                }
            }
        }
        Ok(Ok(text))
    }

    fn trunc(&mut self, alloc: Global, path: &[u8], size: u64) -> Result<Told, AllocError> {
        let item = match self.reach_file(path) {
            Ok(item) => item,
            Err(why) => return Ok(Err(why)),
        };
        if size > 1 << 40 {
            return Ok(Err("TooLarge"));
        }
        let moment = self.moment;
        if let Some(file) = self.items.get_mut(item) {
            file.bytes.resize(size as usize, 0)?;
            file.changed = moment;
            file.marked = moment;
        }
        Ok(Ok(String::new(alloc)))
    }

    fn ls(&self, alloc: Global, path: &[u8]) -> Result<Told, AllocError> {
        let item = match self.reach(path) {
            Ok(item) => item,
            Err(why) => return Ok(Err(why)),
        };
        if !self.is_folder(item) {
            return Ok(Err("NotFolder"));
        }
        let mut text = String::new(alloc);
        let count = self.count_in(path);
        write!(text, " {count}")?;
        for letter in b'a'..=b'z' {
            for row in &self.rows {
                if Table::is_in(&row.path, path) && row.path.last() == Some(&letter) {
                    text.push(' ')?;
                    text.push(char::from(letter))?;
                    if self.is_folder(row.item) {
                        text.push('/')?;
                    }
                }
            }
        }
        Ok(Ok(text))
    }

    fn stat(&self, alloc: Global, path: &[u8]) -> Result<Told, AllocError> {
        let place = match self.reach(path) {
            Ok(place) => place,
            Err(why) => return Ok(Err(why)),
        };
        let mut text = String::new(alloc);
        if let Some(item) = self.items.get(place) {
            let id = item.id;
            if item.folder {
                let count = self.count_in(path);
                write!(text, " folder {id} {count}")?;
            } else {
                let size = item.bytes.len();
                let links = self.names_of(place);
                write!(text, " file {id} {size} {links}")?;
            }
            let (mode, created, changed, marked) = (
                item.mode,
                item.created,
                item.changed,
                item.marked,
            );
            write!(text, " {mode:04o} {created} {changed} {marked}")?;
        }
        Ok(Ok(text))
    }

    fn chmod(&mut self, alloc: Global, path: &[u8], mode: u16) -> Told {
        let place = self.reach(path)?;
        if let Some(item) = self.items.get_mut(place) {
            item.mode = mode;
        }
        self.mark(place);
        Ok(String::new(alloc))
    }

    fn setattr(
        &mut self,
        alloc: Global,
        path: &[u8],
        name: u8,
        count: u8,
    ) -> Result<Told, AllocError> {
        let place = match self.reach(path) {
            Ok(place) => place,
            Err(why) => return Ok(Err(why)),
        };
        if let Some(item) = self.items.get_mut(place) {
            item.attributes.retain(|pair| pair.0 != name);
            item.attributes.push((name, count))?;
        }
        self.mark(place);
        Ok(Ok(String::new(alloc)))
    }

    fn attribute(&self, place: usize, name: u8) -> Option<u8> {
        self.items
            .get(place)?
            .attributes
            .iter()
            .find(|pair| pair.0 == name)
            .map(|pair| pair.1)
    }

    fn getattr(&self, alloc: Global, path: &[u8], name: u8) -> Result<Told, AllocError> {
        let place = match self.reach(path) {
            Ok(place) => place,
            Err(why) => return Ok(Err(why)),
        };
        match self.attribute(place, name) {
            Some(count) => {
                let mut text = String::new(alloc);
                text.push_str(" =")?;
                for _ in 0..count {
                    text.push('x')?;
                }
                Ok(Ok(text))
            }
            None => Ok(Err("NoAttribute")),
        }
    }

    fn delattr(&mut self, alloc: Global, path: &[u8], name: u8) -> Told {
        let place = self.reach(path)?;
        if self.attribute(place, name).is_none() {
            return Err("NoAttribute");
        }
        if let Some(item) = self.items.get_mut(place) {
            item.attributes.retain(|pair| pair.0 != name);
        }
        self.mark(place);
        Ok(String::new(alloc))
    }

    fn lsattr(&self, alloc: Global, path: &[u8]) -> Result<Told, AllocError> {
        let place = match self.reach(path) {
            Ok(place) => place,
            Err(why) => return Ok(Err(why)),
        };
        let mut text = String::new(alloc);
        if let Some(item) = self.items.get(place) {
            let count = item.attributes.len();
            write!(text, " {count}")?;
            for letter in b'a'..=b'z' {
                if item.attributes.iter().any(|pair| pair.0 == letter) {
                    text.push(' ')?;
                    text.push(char::from(letter))?;
                }
            }
        }
        Ok(Ok(text))
    }

    fn tell(&mut self, alloc: Global, wish: &Wish) -> Result<Told, AllocError> {
        match wish {
            Wish::Mkdir(path) => self.make(alloc, path, true),
            Wish::Create(path) => self.make(alloc, path, false),
            Wish::Rm(path) => Ok(self.rm(alloc, path)),
            Wish::Rmdir(path) => Ok(self.rmdir(alloc, path)),
            Wish::Mv(from, to) => self.mv(alloc, from, to),
            Wish::Ln(from, to) => self.ln(alloc, from, to),
            Wish::Write(path, from, count) => self.write(alloc, path, *from, *count),
            Wish::Read(path, from, count) => self.read(alloc, path, *from, *count),
            Wish::Trunc(path, size) => self.trunc(alloc, path, *size),
            Wish::Ls(path) => self.ls(alloc, path),
            Wish::Stat(path) => self.stat(alloc, path),
            Wish::Chmod(path, mode) => Ok(self.chmod(alloc, path, *mode)),
            Wish::SetAttr(path, name, count) => self.setattr(alloc, path, *name, *count),
            Wish::GetAttr(path, name) => self.getattr(alloc, path, *name),
            Wish::DelAttr(path, name) => Ok(self.delattr(alloc, path, *name)),
            Wish::LsAttr(path) => self.lsattr(alloc, path),
            Wish::At(moment) => {
                self.moment = *moment;
                Ok(Ok(String::new(alloc)))
            }
        }
    }

    /// The line that answers a wish.
    pub fn answer(&mut self, alloc: Global, wish: &Wish) -> Result<String, AllocError> {
        match self.tell(alloc, wish)? {
            Ok(text) => format!(in alloc; "ok{text}\n"),
            Err(why) => format!(in alloc; "no {why}\n"),
        }
    }
}
