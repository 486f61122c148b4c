//! What is in scope.

use qt_const_rules::consts::Consts;
use qt_names::scopes::Scopes;

/// What is in scope: the names, and what is known of them where a constant is wanted.
#[derive(Drop)]
pub struct Names {
    pub scopes: Scopes,
    pub consts: Consts,
}
