//! Laws of the language of lines, each as a function without a body.
ghost use Rattle.std.specs.Prelude.{◌≡◌, ◌++◌, ◌∷◌, ◌<◌, [], ℕ, List, Ok, Err, length};
ghost use Rattle.hfs_language.specs.declared.refusal.Refusal.TheVariants.{TooLong};
ghost use Rattle.hfs_language.specs.Answered.{CountsAnswered};
ghost use Rattle.hfs_language.specs.Order.{AreRefusedInOrder};
ghost use Rattle.hfs_language.specs.Lines.{lines, HasNoNewline};
ghost use Rattle.hfs_language.specs.Language.{attribute_of, both, command_of, mode_of, most_bytes, number_of, path_of, value_of};
ghost use Rattle.hfs_language.specs.Spelling.{Spells, IsReadAsSpelled, IsReadAsAttribute, IsReadAsMode, IsReadAsPath, IsReadAsValue};
ghost use Rattle.hfs_language.specs.Written.{IsReadBack};
ghost use Rattle.hfs_language.specs.Shown.{ShowsRefusal, ShowsContent, ShowsFacts, ShowsGauge, ShowsListing, ShowsReply, ShowReplies, IsOneLine};
ghost use Rattle.hfs_language.specs.Text.{value_text};

use crate::{Command, Facts, Gauge, Listing, Path, Refusal, Reply};

/// A line is read to a command exactly where it spells it.
pub fn line_is_read_as_spelled(line: &[u8], command: &Command)
    ensures { IsReadAsSpelled line.now command.now }
{}

/// One line doesn't spell two commands.
pub fn line_spells_one_command(line: &[u8], one: &Command, other: &Command)
    ensures { Spells line.now one.now → Spells line.now other.now → one.now ≡ other.now }
{}

/// Each command has a line: what is written of a command is read to it.
pub fn command_is_read_back(command: &Command)
    ensures { IsReadBack command.now }
{}

/// A word is read to a path exactly where it spells it.
pub fn path_is_read_as_spelled(word: &[u8], path: &Path)
    ensures { IsReadAsPath word.now path.now }
{}

/// A word is read to a mode exactly where it is one to four octal digits that write it.
pub fn mode_is_read_as_spelled(word: &[u8], mode: u16)
    ensures { IsReadAsMode word.now mode }
{}

/// A word is read to the name of an attribute exactly where it spells a name of at most 127 units.
pub fn attribute_is_read_as_spelled(word: &[u8], name: &[u16])
    ensures { IsReadAsAttribute word.now name.now }
{}

/// A line that is too long is refused as such; of two words, the grammar counts before the names, and names that are
/// none before such that are too long.
pub fn refusals_come_in_order(line: &[u8], one: &[u8], two: &[u8], three: &[u8])
    ensures long_line { most_bytes < length line.now → command_of line.now ≡ Err TooLong }
    ensures paths { AreRefusedInOrder (path_of one.now) (path_of two.now) }
    ensures mode { AreRefusedInOrder (path_of one.now) (mode_of two.now) }
    ensures number { AreRefusedInOrder (path_of one.now) (number_of two.now) }
    ensures numbers { AreRefusedInOrder (path_of one.now) (both (number_of two.now) (number_of three.now)) }
    ensures attribute { AreRefusedInOrder (path_of one.now) (attribute_of two.now) }
    ensures values { AreRefusedInOrder (attribute_of two.now) (value_of three.now) }
    ensures path_and_values { AreRefusedInOrder (path_of one.now) (both (attribute_of two.now) (value_of three.now)) }
    ensures written { AreRefusedInOrder (path_of one.now) (both (number_of two.now) (value_of three.now)) }
{}

/// Of bytes that begin the texts of replies, as many replies are told whole as they have newlines.
pub fn newlines_count_the_answered(replies: &[Reply], told: &[u8])
    ensures { CountsAnswered replies.now told.now }
{}

/// A word that is read to a value is the value's text.
pub fn value_is_read_as_spelled(word: &[u8], value: &[u8])
    ensures { IsReadAsValue word.now value.now }
{}

/// The text of a value is read to it.
pub fn value_is_read_back(value: &[u8])
    ensures { value_of (value_text value.now) ≡ Ok value.now }
{}

/// The text of a refusal shows which one it is.
pub fn refusal_is_shown(one: Refusal, other: Refusal)
    ensures { ShowsRefusal one other }
{}

/// The text of bytes shows them.
pub fn content_is_shown(one: &[u8], other: &[u8])
    ensures { ShowsContent one.now other.now }
{}

/// The text of facts shows them, but for the high bits of a mode and the links of a folder.
pub fn facts_are_shown(one: Facts, other: Facts)
    ensures { ShowsFacts one other }
{}

/// The text of a gauge shows its numbers.
pub fn gauge_is_shown(one: Gauge, other: Gauge)
    ensures { ShowsGauge one other }
{}

/// The text of a listing shows its names, in their order, and which of them are folders.
pub fn listing_is_shown(one: &Listing, other: &Listing)
    ensures { ShowsListing one.now other.now }
{}

/// The text of a reply shows its kind and all that the text of this kind shows.
///
/// Blocks of 512 bytes or more are wanted, for a listing of 13 names that are numbers has the text of
/// a gauge with blocks of 13 bytes.
pub fn reply_is_shown(one: &Reply, other: &Reply)
    ensures { ShowsReply one.now other.now }
{}

/// The texts of replies, one behind the other, show each of the replies.
pub fn replies_are_shown(these: &[Reply], others: &[Reply])
    ensures { ShowReplies these.now others.now }
{}

/// The text of a reply is one line: it has a newline at its end, and no other.
pub fn reply_is_one_line(reply: &Reply)
    ensures { IsOneLine reply.now }
{}

/// A newline ends a line, and so does the end of the bytes where a line has begun.
pub fn lines_end()
    ensures none { lines [] ≡ [] }
    ensures newline { (line rest : List ℕ) → HasNoNewline line → lines (line ++ 10 ∷ rest) ≡ line ∷ lines rest }
    ensures last { (byte : ℕ) (line : List ℕ) → HasNoNewline (byte ∷ line) → lines (byte ∷ line) ≡ (byte ∷ line) ∷ [] }
{}
