ghost use Rattle.std.specs.Prelude.{◌≡◌, ◌∷◌, ◌++◌};

use super::tree::{Branch, Cell, Entry, Tree};

// One tree of an entry and the trees on its sides.
pub(crate) fn fork(room: Box<Cell>, left: Tree, entry: Entry, right: Tree) -> Tree
    ensures { result ≡ left ++ entry ∷ right }
{
    Branch {
        room,
        left,
        entry,
        right,
    }
    .close()
}

// The same entries, with the uppermost one of the left side on top.
fn left_up(room: Box<Cell>, left: Tree, entry: Entry, right: Tree) -> Tree
    ensures { result ≡ left ++ entry ∷ right }
{
    let Some(up) = left.open() else {
        return fork(room, Tree::empty(), entry, right);
    };
    let Branch {
        room: upper_room,
        left: outer,
        entry: upper,
        right: inner,
    } = up;
    fork(upper_room, outer, upper, fork(room, inner, entry, right))
}

// The same entries, with the uppermost one of the right side on top.
fn right_up(room: Box<Cell>, left: Tree, entry: Entry, right: Tree) -> Tree
    ensures { result ≡ left ++ entry ∷ right }
{
    let Some(up) = right.open() else {
        return fork(room, left, entry, Tree::empty());
    };
    let Branch {
        room: upper_room,
        left: inner,
        entry: upper,
        right: outer,
    } = up;
    fork(upper_room, fork(room, left, entry, inner), upper, outer)
}

// The left side no lower than the right one, by one turn at most.
fn leaning_left(tree: Tree) -> Tree
    ensures { result ≡ tree }
{
    let Some(branch) = tree.open() else {
        return Tree::empty();
    };
    let Branch {
        room,
        left,
        entry,
        right,
    } = branch;
    if left.height() < right.height() {
        return right_up(room, left, entry, right);
    }
    fork(room, left, entry, right)
}

// The right side no lower than the left one, by one turn at most.
fn leaning_right(tree: Tree) -> Tree
    ensures { result ≡ tree }
{
    let Some(branch) = tree.open() else {
        return Tree::empty();
    };
    let Branch {
        room,
        left,
        entry,
        right,
    } = branch;
    if right.height() < left.height() {
        return left_up(room, left, entry, right);
    }
    fork(room, left, entry, right)
}

// The same entries in balance, where one side is at most two higher than the other.
fn turned(room: Box<Cell>, left: Tree, entry: Entry, right: Tree) -> Tree
    ensures { result ≡ left ++ entry ∷ right }
{
    let (left_height, right_height) = (left.height(), right.height());
    if left_height > right_height.saturating_add(1) {
        return left_up(room, leaning_left(left), entry, right);
    }
    if right_height > left_height.saturating_add(1) {
        return right_up(room, left, entry, leaning_right(right));
    }
    fork(room, left, entry, right)
}

/// The tree of these entries in balance, where each side is, whatever their heights.
#[cycle(join)]
pub(crate) fn join(room: Box<Cell>, left: Tree, entry: Entry, right: Tree) -> Tree
    ensures { result ≡ left ++ entry ∷ right }
{
    let (left_height, right_height) = (left.height(), right.height());
    if left_height > right_height.saturating_add(1) {
        return join_under_left(room, left, entry, right);
    }
    if right_height > left_height.saturating_add(1) {
        return join_under_right(room, left, entry, right);
    }
    fork(room, left, entry, right)
}

#[cycle(join)]
fn join_under_left(room: Box<Cell>, left: Tree, entry: Entry, right: Tree) -> Tree
    ensures { result ≡ left ++ entry ∷ right }
{
    let Some(up) = left.open() else {
        return fork(room, Tree::empty(), entry, right);
    };
    let Branch {
        room: upper_room,
        left: outer,
        entry: upper,
        right: inner,
    } = up;
    turned(upper_room, outer, upper, join(room, inner, entry, right))
}

#[cycle(join)]
fn join_under_right(room: Box<Cell>, left: Tree, entry: Entry, right: Tree) -> Tree
    ensures { result ≡ left ++ entry ∷ right }
{
    let Some(up) = right.open() else {
        return fork(room, left, entry, Tree::empty());
    };
    let Branch {
        room: upper_room,
        left: inner,
        entry: upper,
        right: outer,
    } = up;
    turned(upper_room, join(room, left, entry, inner), upper, outer)
}
