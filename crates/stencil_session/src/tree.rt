//! A binary tree of marks in one list: the root is node 1, and node i has the children 2i and 2i + 1.

ghost use Rattle.std.specs.Prelude.{◌≡◌, ◌+◌, ◌*◌, ◌<◌, ◌||◌, true, false, Some, drop, get_or, set, length, if◌then◌else◌};
ghost use Rattle.stencil_session.specs.Tree.{IsTree, IsTreeBut, least_mark};

// The left child of a node if that child is marked, and the right child otherwise.
fn least_child(tree: &Vec<bool>, node: usize) -> usize
    requires { 2 * node + 1 < length tree.now.items }
    ensures { result ≡ (if get_or tree.now.items (2 * node) false then 2 * node else 2 * node + 1) }
{
    let left = 2 * node;
    if tree[left] { left } else { left + 1 }
}

/// The number of the first marked leaf, counted from 0 among the leaves. The root is marked.
pub(crate) fn least_leaf(tree: &Vec<bool>, leaves: usize) -> usize
    requires tree { IsTree leaves tree.now.items }
    requires some { get_or tree.now.items 1 false ≡ true }
    ensures { Some result ≡ least_mark (drop leaves tree.now.items) }
{
    let mut node = 1;
    while node < leaves {
        node = least_child(tree, node);
    }
    node - leaves
}

// Whether a child of the node is marked.
fn has_marked_child(tree: &Vec<bool>, node: usize) -> bool
    requires { 2 * node + 1 < length tree.now.items }
    ensures { result ≡ (get_or tree.now.items (2 * node) false || get_or tree.now.items (2 * node + 1) false) }
{
    tree[2 * node] || tree[2 * node + 1]
}

// Marks a node exactly if one of its children is marked, then the nodes above it, until one is correct already.
fn mend(tree: &mut Vec<bool>, leaves: usize, node: usize)
    requires node { node < leaves }
    requires tree { IsTreeBut node leaves tree.old.items }
    ensures tree { IsTree leaves tree.new.items }
    ensures leaves { drop leaves tree.new.items ≡ drop leaves tree.old.items }
{
    let mut at = node;
    while at > 0 && tree[at] != has_marked_child(tree, at) {
        tree[at] = !tree[at];
        at /= 2;
    }
}

/// Marks or unmarks a leaf, given its number among the leaves, and corrects the nodes above it.
pub(crate) fn put_leaf(tree: &mut Vec<bool>, leaves: usize, number: usize, is_marked: bool)
    requires number { number < leaves }
    requires tree { IsTree leaves tree.old.items }
    ensures tree { IsTree leaves tree.new.items }
    ensures leaves { drop leaves tree.new.items ≡ set (drop leaves tree.old.items) number is_marked }
{
    let leaf = leaves + number;
    tree[leaf] = is_marked;
    mend(tree, leaves, leaf / 2);
}
