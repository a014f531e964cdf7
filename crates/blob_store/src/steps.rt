//! How a file is replaced: by a draft beside it, that is synced and then renamed.
ghost use Rattle.std.specs.Prelude.{◌≡◌, ◌≢◌, ◌↔◌, false, Some, None, IsTrue};
ghost use Rattle.blob_store.specs.Shelves.{joined};
ghost use Rattle.blob_store.specs.Known.{KnownBoth, Sure};
ghost use Rattle.blob_store.specs.Drives.{IsDraft, IsIn, IsInHeld, Writes, told_at};
ghost use Rattle.blob_store.specs.Files.{Holds, SeesDraft, Sees, IsReady, FillsOrNot, WritesDraft, TellsMark, put_fault, MayBeWritten, IsUnchanged, LooksOver};
ghost use Rattle.blob_store.specs.Files.{IsOwnLook, GivesOrNot, GivesTo, GivesMode, DropsAt, ClearsPlace, Settles, Starts, Lands, PutsSeen, PutsOrNot, PutsAll};
ghost use Rattle.blob_store.specs.Logs.{Answers, HoldsOrNot, KeepsDraft, IsQuiet, IsDue, GivesRights, DropsDraft, StartsOrNot, WritesOrNot, SyncsOrNot, IsSameLook};
ghost use Rattle.blob_store.specs.Logs.{holds_lock, draft_left, GivesPart, CanMake, ClearsBy};
ghost use Rattle.blob_store.specs.PutLogs.{LooksOverOrNot, SeesOwnOrNot, SeesAgain, FillsBy, Tells, EndsBy, LandsBy, PutsSeenBy, PutsHeld, PutsBy, PutsReleased};

use crate::disk::{Disk, DiskFault, Kind, LockTry, Told};
use crate::marks::Mark;
use crate::reads::{is_same_file, is_same_stamp, is_same_told};

// How often a folder whose lock another program has is asked for, with ten milliseconds between: five seconds in all.
const TRIES: u32 = 500;

/// Why a file was not replaced.
#[derive(Clone, Copy, Debug, PartialEq, Eq)]
pub enum PutFault {
    /// Memory was asked for and refused.
    NoMemory,
    /// A call failed, or another program has the lock of the folder.
    Failed,
    /// It is no regular file, nobody may write it, or it is not what was seen last; or the draft is another program's.
    Barred,
}

impl From<DiskFault> for PutFault {
    ghost from_gives = { λ fault put. put ≡ put_fault fault };

    fn from(fault: DiskFault) -> PutFault {
        match fault {
            DiskFault::NoMemory => PutFault::NoMemory,
            DiskFault::Failed => PutFault::Failed,
        }
    }
}

// Whether the folder is locked, by the answer of its lock. EINVAL, ENOSYS and EOPNOTSUPP say that its file system has no locks.
fn answer_of(tried: LockTry) -> Result<bool, DiskFault>
    ensures { Answers tried result }
{
    match tried {
        LockTry::Taken => Ok(true),
        LockTry::Refused(22) | LockTry::Refused(38) | LockTry::Refused(95) => Ok(false),
        LockTry::Busy | LockTry::Refused(_) => Err(DiskFault::Failed),
    }
}

// Opens a folder and takes its lock, where another program has it once it is free.
fn hold<D: Disk>(disk: &mut D, folder: &str) -> Result<bool, DiskFault>
    ensures drive { KnownBoth (D.drive disk.old) (D.drive disk.new) (λ old new. Holds old new folder.now result) }
    ensures log { KnownBoth (D.log disk.old) (D.log disk.new) (λ old new. HoldsOrNot old new result) }
{
    disk.open_folder(folder)?;
    for round in 1..TRIES {
        let _ = round;
        let tried = disk.try_lock();
        if tried != LockTry::Busy {
            return answer_of(tried);
        }
        disk.wait();
    }
    answer_of(disk.try_lock())
}

// Whether nothing stands there, or a regular file that somebody may write.
fn is_open(told: Option<Told>) -> bool
    ensures { IsTrue result ↔ MayBeWritten told }
{
    match told {
        None => true,
        Some(told) => told.kind == Kind::Regular && told.mode & 0o222 != 0,
    }
}

// Whether this is what was seen last.
fn is_unchanged(told: Option<Told>, mark: Mark) -> bool
    ensures { IsTrue result ↔ IsUnchanged told mark }
{
    match (told, mark) {
        (_, Mark::Never) | (None, Mark::Absent) => true,
        (_, Mark::Unseen) | (Some(_), Mark::Absent) | (None, Mark::Seen(_)) => false,
        (Some(told), Mark::Seen(stamp)) => is_same_stamp(told.stamp, stamp),
    }
}

// Whether nothing changed between two looks at a place.
fn is_same_look(a: Option<Told>, b: Option<Told>) -> bool
    ensures { IsTrue result ↔ IsSameLook a b }
{
    match (a, b) {
        (None, None) => true,
        (Some(a), Some(b)) => is_same_told(a, b),
        (None, Some(_)) | (Some(_), None) => false,
    }
}

// Whether what was seen under the draft's path is the draft.
fn is_own(made: Told, there: Option<Told>) -> bool
    ensures { IsTrue result ↔ IsOwnLook made there }
{
    match there {
        None => false,
        Some(there) => is_same_file(made.stamp, there.stamp),
    }
}

// What stands under a path, where it may be replaced.
fn look_over<D: Disk>(disk: &mut D, path: &str, mark: Mark) -> Result<Option<Told>, PutFault>
    ensures drive { KnownBoth (D.drive disk.old) (D.drive disk.new) (λ old new. LooksOver old new path.now mark result) }
    ensures log { KnownBoth (D.log disk.old) (D.log disk.new) (λ old new. LooksOverOrNot old new path.now mark result) }
{
    let told = disk.look(path)?;
    if !is_open(told) || !is_unchanged(told, mark) {
        return Err(PutFault::Barred);
    }
    if told.is_some() {
        disk.probe(path)?;
    }
    Ok(told)
}

// Sees that the draft stands under its path: whoever knows nothing of the lock may have put another file there.
fn see_own<D: Disk>(disk: &mut D, draft: &str) -> Result<(), PutFault>
    requires { Sure (D.drive disk.old) (λ d. IsDraft d draft.now) }
    ensures drive { KnownBoth (D.drive disk.old) (D.drive disk.new) (λ old new. SeesDraft old new result) }
    ensures log { KnownBoth (D.log disk.old) (D.log disk.new) (λ old new. SeesOwnOrNot old new draft.now result) }
{
    let made = disk.stat_draft(draft)?;
    let there = disk.look_draft(draft)?;
    if is_own(made, there) {
        return Ok(());
    }
    Err(PutFault::Barred)
}

// Looks at a file again, and sees that it is what was seen.
fn look_again<D: Disk>(disk: &mut D, path: &str, seen: Option<Told>) -> Result<(), PutFault>
    requires { Sure (D.drive disk.old) (λ d. told_at d path.now ≡ seen) }
    ensures drive { KnownBoth (D.drive disk.old) (D.drive disk.new) (λ old new. Sees old new result) }
    ensures log { KnownBoth (D.log disk.old) (D.log disk.new) (λ old new. SeesAgain old new path.now seen result) }
{
    let last = disk.look(path)?;
    if is_same_look(seen, last) {
        return Ok(());
    }
    Err(PutFault::Barred)
}

// Gives the draft the group of a file, where it has another.
fn give_group<D: Disk>(disk: &mut D, draft: &str, group: u32, now: u32) -> Result<(), DiskFault>
    requires { Sure (D.drive disk.old) (λ d. IsDraft d draft.now) }
    ensures drive { KnownBoth (D.drive disk.old) (D.drive disk.new) (λ old new. GivesOrNot old new draft.now result) }
    ensures log { KnownBoth (D.log disk.old) (D.log disk.new) (λ old new. GivesPart old new result) }
{
    if now == group {
        return Ok(());
    }
    disk.set_group(draft, group)
}

// Gives the draft the owner of a file, where it has another and the program may. (The file is the program's own otherwise.)
fn give_owner<D: Disk>(disk: &mut D, draft: &str, owner: u32, now: u32)
    requires { Sure (D.drive disk.old) (λ d. IsDraft d draft.now) }
    ensures drive { KnownBoth (D.drive disk.old) (D.drive disk.new) (λ old new. GivesTo old new draft.now 0) }
    ensures log { KnownBoth (D.log disk.old) (D.log disk.new) (λ old new. KeepsDraft old new × IsQuiet old new) }
{
    if now == owner {
        return;
    }
    let _ = disk.set_owner(draft, owner);
}

// Gives the draft the group and, where the program may, the owner of a file, and then its mode.
fn give_rights<D: Disk>(disk: &mut D, draft: &str, like: Told) -> Result<(), DiskFault>
    requires { Sure (D.drive disk.old) (λ d. IsDraft d draft.now) }
    ensures drive { KnownBoth (D.drive disk.old) (D.drive disk.new) (λ old new. GivesMode old new draft.now like.mode result) }
    ensures log { KnownBoth (D.log disk.old) (D.log disk.new) (λ old new. GivesRights old new like result) }
{
    let now = disk.stat_draft(draft)?;
    give_group(disk, draft, like.group, now.group)?;
    give_owner(disk, draft, like.owner, now.owner);
    disk.set_mode(draft, like.mode)
}

// Removes the draft. Where the folder is not locked, it is looked at first, since another program may have put its own there.
fn drop_draft<D: Disk>(disk: &mut D, draft: &str, locked: bool)
    requires drafted { Sure (D.drive disk.old) (λ d. IsDraft d draft.now) }
    requires held { Sure (D.drive disk.old) (λ d. IsInHeld d draft.now) }
    requires lock { Sure (D.log disk.old) (λ log. holds_lock log ≡ locked) }
    ensures drive { KnownBoth (D.drive disk.old) (D.drive disk.new) (λ old new. DropsAt old new draft.now) }
    ensures log { KnownBoth (D.log disk.old) (D.log disk.new) (λ old new. DropsDraft old new draft.now) }
{
    if locked {
        let _ = disk.remove(draft);
        return;
    }
    match see_own(disk, draft) {
        Ok(()) => {
            let _ = disk.remove(draft);
        }
        Err(_) => {}
    }
}

// Makes the draft, with the rights of the file that it is to replace. It is its maker's alone before it has them.
fn make_draft<D: Disk>(
    disk: &mut D,
    draft: &str,
    like: Option<Told>,
    locked: bool,
) -> Result<(), DiskFault>
    requires held { Sure (D.drive disk.old) (λ d. IsInHeld d draft.now) }
    requires lock { Sure (D.log disk.old) (λ log. holds_lock log ≡ locked) }
    requires cleared { Sure (D.log disk.old) CanMake }
    ensures drive { KnownBoth (D.drive disk.old) (D.drive disk.new) (λ old new. Starts old new draft.now like result) }
    ensures log { KnownBoth (D.log disk.old) (D.log disk.new) (λ old new. StartsOrNot old new draft.now like result) }
{
    let Some(like) = like else {
        return disk.create(draft, 0o666);
    };
    disk.create(draft, 0o600)?;
    match give_rights(disk, draft, like) {
        Ok(()) => Ok(()),
        Err(fault) => {
            drop_draft(disk, draft, locked);
            Err(fault)
        }
    }
}

// Removes what another program left under the draft's path, where the folder is locked. Where it is not, another may be making it.
fn clear_place<D: Disk>(disk: &mut D, draft: &str, locked: bool) -> Result<(), DiskFault>
    requires held { Sure (D.drive disk.old) (λ d. IsInHeld d draft.now) }
    requires locked { Sure (D.drive disk.old) (λ d. d.locked ≡ locked) }
    requires lock { Sure (D.log disk.old) (λ log. holds_lock log ≡ locked) }
    requires none { Sure (D.log disk.old) (λ log. draft_left log ≡ false) }
    ensures drive { KnownBoth (D.drive disk.old) (D.drive disk.new) (λ old new. ClearsPlace old new draft.now result) }
    ensures log { KnownBoth (D.log disk.old) (D.log disk.new) (λ old new. ClearsBy old new draft.now result) }
{
    if locked {
        return disk.remove(draft);
    }
    Ok(())
}

// Makes the draft anew, with the rights of the file that it is to replace. Where the folder is locked, what another program left there is
// removed; where it is not, another may be making it, and it is refused.
fn start_draft<D: Disk>(
    disk: &mut D,
    draft: &str,
    like: Option<Told>,
    locked: bool,
) -> Result<(), DiskFault>
    requires held { Sure (D.drive disk.old) (λ d. IsInHeld d draft.now) }
    requires locked { Sure (D.drive disk.old) (λ d. d.locked ≡ locked) }
    requires lock { Sure (D.log disk.old) (λ log. holds_lock log ≡ locked) }
    requires none { Sure (D.log disk.old) (λ log. draft_left log ≡ false) }
    ensures drive { KnownBoth (D.drive disk.old) (D.drive disk.new) (λ old new. Starts old new draft.now like result) }
    ensures log { KnownBoth (D.log disk.old) (D.log disk.new) (λ old new. StartsOrNot old new draft.now like result) }
{
    clear_place(disk, draft, locked)?;
    make_draft(disk, draft, like, locked)
}

// Writes pieces, one after the other, to the draft.
fn write_pieces<D: Disk>(disk: &mut D, draft: &str, pieces: &[&[u8]]) -> Result<(), DiskFault>
    requires { Sure (D.drive disk.old) (λ d. IsDraft d draft.now) }
    ensures drive { KnownBoth (D.drive disk.old) (D.drive disk.new) (λ old new. Writes old new draft.now (joined pieces.now) result) }
    ensures log { KnownBoth (D.log disk.old) (D.log disk.new) (λ old new. WritesOrNot old new (joined pieces.now) result) }
{
    for piece in pieces {
        disk.write(draft, piece)?;
    }
    Ok(())
}

// Writes pieces to the draft, and syncs it.
fn write_draft<D: Disk>(disk: &mut D, draft: &str, pieces: &[&[u8]]) -> Result<(), DiskFault>
    requires { Sure (D.drive disk.old) (λ d. IsDraft d draft.now) }
    ensures drive { KnownBoth (D.drive disk.old) (D.drive disk.new) (λ old new. WritesDraft old new draft.now (joined pieces.now) result) }
    ensures log { KnownBoth (D.log disk.old) (D.log disk.new) (λ old new. SyncsOrNot old new (joined pieces.now) result) }
{
    write_pieces(disk, draft, pieces)?;
    disk.sync(draft)
}

// Writes and syncs the draft, sees that it stands under its path and that the file is what was seen, and puts it in the file's place.
#[tactic(auto, using(crate::proofs::StepLaws::filled_by))]
fn fill<D: Disk>(
    disk: &mut D,
    draft: &str,
    path: &str,
    pieces: &[&[u8]],
    seen: Option<Told>,
) -> Result<(), PutFault>
    requires ready { Sure (D.drive disk.old) (λ d. IsReady d draft.now path.now) }
    requires seen { Sure (D.drive disk.old) (λ d. told_at d path.now ≡ seen) }
    requires apart { draft.now ≢ path.now }
    ensures drive { KnownBoth (D.drive disk.old) (D.drive disk.new) (λ old new. FillsOrNot old new draft.now path.now (joined pieces.now) result) }
    ensures log { KnownBoth (D.log disk.old) (D.log disk.new) (λ old new. FillsBy old new draft.now path.now (joined pieces.now) seen result) }
{
    write_draft(disk, draft, pieces)?;
    see_own(disk, draft)?;
    look_again(disk, path, seen)?;
    disk.rename(draft, path)?;
    Ok(())
}

// What is seen of the draft, which took the place of a file: the rename changed its stamp.
fn mark_now<D: Disk>(disk: &mut D, path: &str) -> Mark
    requires { Sure (D.drive disk.old) (λ d. IsDraft d path.now) }
    ensures drive { KnownBoth (D.drive disk.old) (D.drive disk.new) (λ old new. TellsMark old new path.now result) }
    ensures log { KnownBoth (D.log disk.old) (D.log disk.new) (λ old new. Tells old new result) }
{
    match disk.stat_draft(path) {
        Ok(told) => Mark::Seen(told.stamp),
        Err(_) => Mark::Unseen,
    }
}

// Syncs the folder. Where that fails the file is replaced all the same.
fn settle_or_not<D: Disk>(disk: &mut D)
    requires { Sure (D.drive disk.old) (λ d. d.held ≢ None) }
    ensures drive { KnownBoth (D.drive disk.old) (D.drive disk.new) (λ old new. Settles old new) }
    ensures log { KnownBoth (D.log disk.old) (D.log disk.new) (λ old new. EndsBy old new) }
{
    match disk.settle() {
        Ok(()) | Err(_) => {}
    }
}

// Writes the draft and puts it in the place of the file, or removes it.
fn land<D: Disk>(
    disk: &mut D,
    draft: &str,
    path: &str,
    pieces: &[&[u8]],
    seen: Option<Told>,
    locked: bool,
) -> Result<Mark, PutFault>
    requires ready { Sure (D.drive disk.old) (λ d. IsReady d draft.now path.now) }
    requires seen { Sure (D.drive disk.old) (λ d. told_at d path.now ≡ seen) }
    requires draft_in { Sure (D.drive disk.old) (λ d. IsInHeld d draft.now) }
    requires apart { draft.now ≢ path.now }
    requires lock { Sure (D.log disk.old) (λ log. holds_lock log ≡ locked) }
    ensures drive { KnownBoth (D.drive disk.old) (D.drive disk.new) (λ old new. Lands old new draft.now path.now (joined pieces.now) result) }
    ensures log { KnownBoth (D.log disk.old) (D.log disk.new) (λ old new. LandsBy old new draft.now path.now (joined pieces.now) seen result) }
{
    match fill(disk, draft, path, pieces, seen) {
        Ok(()) => {
            let mark = mark_now(disk, path);
            settle_or_not(disk);
            Ok(mark)
        }
        Err(fault) => {
            drop_draft(disk, draft, locked);
            Err(fault)
        }
    }
}

// Makes the draft, and puts the bytes of these pieces in the place of a file that was looked over.
#[tactic(auto, using(crate::proofs::StepLaws::keeps_unstarted, crate::proofs::StepLaws::unstarted_by))]
fn put_seen<D: Disk>(
    disk: &mut D,
    draft: &str,
    path: &str,
    seen: Option<Told>,
    pieces: &[&[u8]],
    locked: bool,
) -> Result<Mark, PutFault>
    requires locked { Sure (D.drive disk.old) (λ d. d.locked ≡ locked) }
    requires draft_in { Sure (D.drive disk.old) (λ d. IsInHeld d draft.now) }
    requires path_in { Sure (D.drive disk.old) (λ d. IsInHeld d path.now) }
    requires seen { Sure (D.drive disk.old) (λ d. told_at d path.now ≡ seen) }
    requires apart { draft.now ≢ path.now }
    requires lock { Sure (D.log disk.old) (λ log. holds_lock log ≡ locked) }
    requires none { Sure (D.log disk.old) (λ log. draft_left log ≡ false) }
    ensures drive { KnownBoth (D.drive disk.old) (D.drive disk.new)
        (λ old new. PutsSeen old new draft.now path.now seen (joined pieces.now) result) }
    ensures log { KnownBoth (D.log disk.old) (D.log disk.new)
        (λ old new. PutsSeenBy old new draft.now path.now (joined pieces.now) seen result) }
{
    start_draft(disk, draft, seen, locked)?;
    land(disk, draft, path, pieces, seen, locked)
}

// Puts the bytes of these pieces in the place of a file of the folder that is held.
fn put_held<D: Disk>(
    disk: &mut D,
    draft: &str,
    path: &str,
    mark: Mark,
    pieces: &[&[u8]],
    locked: bool,
) -> Result<Mark, PutFault>
    requires locked { Sure (D.drive disk.old) (λ d. d.locked ≡ locked) }
    requires draft_in { Sure (D.drive disk.old) (λ d. IsInHeld d draft.now) }
    requires path_in { Sure (D.drive disk.old) (λ d. IsInHeld d path.now) }
    requires apart { draft.now ≢ path.now }
    requires lock { Sure (D.log disk.old) (λ log. holds_lock log ≡ locked) }
    requires none { Sure (D.log disk.old) (λ log. draft_left log ≡ false) }
    ensures drive { KnownBoth (D.drive disk.old) (D.drive disk.new)
        (λ old new. PutsOrNot old new draft.now path.now mark (joined pieces.now) result) }
    ensures log { KnownBoth (D.log disk.old) (D.log disk.new)
        (λ old new. PutsHeld old new draft.now path.now (joined pieces.now) mark result) }
{
    let seen = look_over(disk, path, mark)?;
    put_seen(disk, draft, path, seen, pieces, locked)
}

// Holds a folder, and puts the bytes of these pieces in the place of a file of it.
fn hold_and_put<D: Disk>(
    disk: &mut D,
    folder: &str,
    draft: &str,
    path: &str,
    mark: Mark,
    pieces: &[&[u8]],
) -> Result<Mark, PutFault>
    requires draft_in { IsIn (Some folder.now) draft.now }
    requires path_in { IsIn (Some folder.now) path.now }
    requires apart { draft.now ≢ path.now }
    ensures drive { KnownBoth (D.drive disk.old) (D.drive disk.new)
        (λ old new. PutsOrNot old new draft.now path.now mark (joined pieces.now) result) }
    ensures log { KnownBoth (D.log disk.old) (D.log disk.new)
        (λ old new. PutsBy old new draft.now path.now (joined pieces.now) mark result) }
{
    let locked = hold(disk, folder)?;
    put_held(disk, draft, path, mark, pieces, locked)
}

/// Puts the bytes of these pieces in the place of a file, whole or not at all, and holds its folder meanwhile.
///
/// They are written to a draft beside it, which has the rights of the file, is synced and is then renamed; and then the folder is synced.
/// A draft that another program left is removed first, where the folder can be locked. Right before the rename the file is looked at again.
/// Returns what is seen of the new file.
///
/// # Errors
///
/// [`PutFault::Barred`] where the file is no regular one, nobody may write it, or it is not what was seen last, also right before the
/// rename; [`PutFault::Failed`] where a call failed, and where another program holds the folder; and [`PutFault::NoMemory`] where memory was
/// refused. The file is as it was then.
pub fn put_file<D: Disk>(
    disk: &mut D,
    folder: &str,
    draft: &str,
    path: &str,
    mark: Mark,
    pieces: &[&[u8]],
) -> Result<Mark, PutFault>
    requires draft_in { IsIn (Some folder.now) draft.now }
    requires path_in { IsIn (Some folder.now) path.now }
    requires apart { draft.now ≢ path.now }
    ensures done { KnownBoth (D.drive disk.old) (D.drive disk.new)
        (λ old new. PutsAll old new draft.now path.now mark (joined pieces.now) result) }
    ensures log { KnownBoth (D.log disk.old) (D.log disk.new)
        (λ old new. PutsReleased old new draft.now path.now (joined pieces.now) mark result) }
{
    let put = hold_and_put(disk, folder, draft, path, mark, pieces);
    disk.release();
    match put {
        Ok(now) => Ok(now),
        Err(fault) => Err(fault),
    }
}
