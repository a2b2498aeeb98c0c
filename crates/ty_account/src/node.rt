// What stands in the places of an account.

/// A node: an item, and where the node after it will stand. The pointer owns nothing.
#[derive(Drop)]
pub struct Node<T> {
    pub(crate) item: T,
    pub(crate) next: *mut Place<T>,
}

/// A place for a node, which is empty until the node is entered.
#[derive(Drop)]
pub struct Place<T> {
    pub(crate) node: Option<Node<T>>,
}

unsafe impl<T: Send> Send for Node<T> {}

unsafe impl<T: Sync> Sync for Node<T> {}
