ghost use Rattle.std.specs.Prelude.{◌≡◌, IfOk, IsSome, OnOk};
ghost use Rattle.manifest_cache.specs.Kept.{AgreesWith};
ghost use Rattle.plain_model.specs.Lookups.{find_event};
ghost use Rattle.plain_model.specs.declared.id.AnyId.TheVariants.{Commit};

use event_arena::{Events, Plan};
use manifest_cache::Manifests;
use path_tree::PathTree;
use plain_model::{
    AnyId, CommitId, EntryList, Items, Mode, NoMemory, Path, PlainEvent, Steps, Text,
};
use sample_history::sample_events;
use soundness_laws::{what_is_read_is_sound, what_is_read_passes_no_limit};
use std::alloc::Global;
use std::test::*;
use stream_reader::read_stream;

struct Here;

// The first commit puts three files, and the next takes two of them away.
const FOLDERS: &[u8] = b"commit b
mark :1
committer A <e> 1 +0000
data 0
M 644 inline a/b
data 1
1
M 644 inline a-b
data 1
2
M 644 inline a/c/d
data 1
3
commit b
mark :2
committer A <e> 2 +0000
data 0
D a
";

// f comes, and then g; then either f goes, or h comes and g goes. The ids are 1, and 2 to 6 of commits.
const FORK: &[u8] = b"blob
mark :1
data 0
commit b
mark :2
committer A <e> 2 +0000
data 0
M 644 :1 f
commit b
mark :3
committer A <e> 3 +0000
data 0
M 644 :1 g
commit c
mark :4
committer A <e> 4 +0000
data 0
from :3
D f
commit b
mark :5
committer A <e> 5 +0000
data 0
from :3
M 644 :1 h
commit b
mark :6
committer A <e> 6 +0000
data 0
from :5
D g
";

// The history of a stream.
fn history(alloc: Global, stream: &[u8]) -> Result<Events, Fail> {
    what_is_read_is_sound();
    what_is_read_passes_no_limit();
    match read_stream(alloc, stream) {
        Ok(list) => Ok(Events::from_plain(alloc, list)?),
        Err(_) => Err("no stream")?,
    }
}

// Applies the operations of a commit.
fn apply_all(
    tree: &mut PathTree,
    events: &Events,
    id: AnyId,
    steps: &mut Steps<Here>,
) -> Result<(), Fail> {
    if let Some(PlainEvent::Commit { ops, .. }) = events.event(id) {
        for op in ops.as_slice() {
            tree.apply(op, steps)?;
        }
    }
    Ok(())
}

fn commit_id(number: u64) -> AnyId
    ensures { result ≡ Commit number }
{
    AnyId::Commit(CommitId::new(number))
}

// The tree of the first commit of the folders, and with how many steps it is made.
fn first_tree(alloc: Global, events: &Events) -> Result<(PathTree, u64), Fail> {
    let mut tree = PathTree::new(alloc)?;
    let mut steps: Steps<Here> = Steps::new();
    apply_all(&mut tree, events, commit_id(4), &mut steps)?;
    Ok((tree, steps.count()))
}

// An equal tree, to which the operations of the second commit are applied.
fn second_tree(events: &Events, first: &PathTree) -> Result<PathTree, Fail> {
    let mut tree = first.share()?;
    let mut steps: Steps<Here> = Steps::new();
    apply_all(&mut tree, events, commit_id(5), &mut steps)?;
    Ok(tree)
}

// The paths of a list, each with a space after it.
fn shown(alloc: Global, list: &EntryList) -> Result<Text, NoMemory> {
    let mut out: Text = Items::empty(alloc);
    for (path, _) in list.as_slice() {
        out.push_all(path.as_bytes())?;
        out.push(b' ')?;
    }
    Ok(out)
}

fn is_shown(alloc: Global, list: &EntryList, want: &[u8]) -> Result<bool, NoMemory> {
    Ok(shown(alloc, list)?.as_slice() == want)
}

#[test]
fn a_shared_tree_stays_as_it_was(rt: HostRuntime) -> Result<(), Fail> {
    let alloc = rt.alloc();
    let events = history(alloc, FOLDERS)?;
    let (first, steps) = first_tree(alloc, &events)?;
    let second = second_tree(&events, &first)?;
    assert_eq!(rt; steps, 3);
    assert_eq!(rt; (first.len(), second.len()), (3, 1));
    assert!(rt; is_shown(alloc, &first.entries()?, b"a-b a/b a/c/d ")?);
    assert!(rt; is_shown(alloc, &second.entries()?, b"a-b ")?);
    Ok(())
}

// Whether there is nothing at the folder a, and a file at a path in it.
fn is_looked_up(alloc: Global, tree: &PathTree) -> Result<bool, Fail> {
    let file = tree.get(&Path::new(alloc, b"a/c/d")?).ok_or("no file")?;
    let folder = tree.get(&Path::new(alloc, b"a")?);
    Ok(file.mode == Mode::Plain && folder.is_none())
}

#[test]
fn a_file_is_looked_up_and_a_folder_is_listed(rt: HostRuntime) -> Result<(), Fail> {
    let alloc = rt.alloc();
    let events = history(alloc, FOLDERS)?;
    let (tree, _) = first_tree(alloc, &events)?;
    assert!(rt; is_looked_up(alloc, &tree)?);
    let below = tree.entries_below(&Path::new(alloc, b"a")?)?;
    assert!(rt; is_shown(alloc, &below, b"a/b a/c/d ")?);
    Ok(())
}

fn find(events: &Events, number: u64) -> Result<(), Fail>
    ensures { OnOk result (IsSome (find_event (Commit number) events.now.list)) }
{
    events.event(commit_id(number)).ok_or("no such commit")?;
    Ok(())
}

// The paths of the tree of a commit.
fn paths(
    alloc: Global,
    manifests: &mut Manifests,
    events: &Events,
    number: u64,
    steps: &mut Steps<Here>,
) -> Result<Text, Fail>
    requires { AgreesWith events.now.list manifests.old }
    ensures { AgreesWith events.now.list manifests.new }
{
    find(events, number)?;
    let tree = manifests.get(events, CommitId::new(number), steps)?;
    Ok(shown(alloc, &tree.entries()?)?)
}

// How many steps have been taken in all where the tree of a commit is there, and its paths.
fn put_paths(
    alloc: Global,
    out: &mut Text,
    manifests: &mut Manifests,
    events: &Events,
    number: u64,
    steps: &mut Steps<Here>,
) -> Result<(), Fail>
    requires { AgreesWith events.now.list manifests.old }
    ensures { AgreesWith events.now.list manifests.new }
{
    let paths = paths(alloc, manifests, events, number, steps)?;
    out.push_number(steps.count())?;
    out.push(b' ')?;
    out.push_all(paths.as_slice())?;
    Ok(())
}

// The commits of the fork whose trees are kept, each with a space after it.
fn put_kept(out: &mut Text, manifests: &Manifests) -> Result<(), NoMemory> {
    for number in 2..7 {
        if manifests.kept(CommitId::new(number)) {
            out.push_number(number)?;
            out.push(b' ')?;
        }
    }
    Ok(())
}

// The steps and the paths where the trees of three commits of the fork are asked for, and what is kept then.
fn folded(alloc: Global, first: u64, second: u64, third: u64) -> Result<Text, Fail> {
    let events = history(alloc, FORK)?;
    let mut manifests = Manifests::new(alloc)?;
    let mut steps: Steps<Here> = Steps::new();
    let mut out: Text = Items::empty(alloc);
    put_paths(alloc, &mut out, &mut manifests, &events, first, &mut steps)?;
    put_paths(alloc, &mut out, &mut manifests, &events, second, &mut steps)?;
    put_paths(alloc, &mut out, &mut manifests, &events, third, &mut steps)?;
    put_kept(&mut out, &manifests)?;
    Ok(out)
}

#[test]
fn a_tree_is_folded_from_the_nearest_kept_one(rt: HostRuntime) -> Result<(), Fail> {
    let alloc = rt.alloc();
    // Four operations to 6; three to 4, whose line has no kept commit; none to 6, which is kept.
    let want: &[u8] = b"4 f h 7 g 7 f h 4 6 ";
    assert_eq!(rt; folded(alloc, 6, 4, 6)?.as_slice(), want);
    // Three operations to 4; two to 3, which 4 is after; two to 6, from 3 on.
    let want: &[u8] = b"3 g 5 f g 7 f h 3 4 6 ";
    assert_eq!(rt; folded(alloc, 4, 3, 6)?.as_slice(), want);
    Ok(())
}

// A plan that takes a commit its operations.
fn without_ops(alloc: Global, events: &Events, number: u64) -> Result<Plan, Fail>
    ensures { IfOk result (λ plan. plan.before ≡ events.now.list) }
{
    find(events, number)?;
    let mut plan = Plan::new(alloc, events)?;
    plan.set_ops(CommitId::new(number), Items::empty(alloc))?;
    Ok(plan)
}

// What is kept of 4 and 6 after a commit has lost its operations.
fn followed(alloc: Global, changed: u64) -> Result<Text, Fail> {
    let events = history(alloc, FORK)?;
    let mut manifests = Manifests::new(alloc)?;
    let mut steps: Steps<Here> = Steps::new();
    let mut out: Text = Items::empty(alloc);
    paths(alloc, &mut manifests, &events, 4, &mut steps)?;
    paths(alloc, &mut manifests, &events, 6, &mut steps)?;
    let plan = without_ops(alloc, &events, changed)?;
    manifests.follow(&plan);
    put_kept(&mut out, &manifests)?;
    Ok(out)
}

#[test]
fn a_tree_stays_where_its_line_stays(rt: HostRuntime) -> Result<(), Fail> {
    let rows: [(&str, u64, &[u8]); 4] = [
        ("an ancestor of both", 2, b""),
        ("an ancestor of 6 alone", 5, b"4 "),
        ("6 itself", 6, b"4 "),
        ("4 itself", 4, b"6 "),
    ];
    for (what, changed, want) in rows {
        assert_eq!(rt; followed(rt.alloc(), changed)?.as_slice(), want, "{what}");
    }
    Ok(())
}

// Asks for the trees of the commits of a sample of 65, one after another.
fn use_all(manifests: &mut Manifests, events: &Events) -> Result<(), Fail>
    requires { AgreesWith events.now.list manifests.old }
{
    let mut steps: Steps<Here> = Steps::new();
    for number in 1..66 {
        find(events, 2 * number)?;
        manifests.get(events, CommitId::new(2 * number), &mut steps)?;
    }
    Ok(())
}

#[test]
fn of_65_trees_64_are_kept(rt: HostRuntime) -> Result<(), Fail> {
    let alloc = rt.alloc();
    let events = Events::from_plain(alloc, sample_events(alloc, 65, 0)?)?;
    let mut manifests = Manifests::new(alloc)?;
    use_all(&mut manifests, &events)?;
    assert_eq!(rt; manifests.len(), 64);
    assert!(rt; manifests.kept(CommitId::new(130)), "the last");
    assert!(rt; manifests.kept(CommitId::new(4)), "the second");
    assert!(rt; !manifests.kept(CommitId::new(2)), "the first");
    Ok(())
}
