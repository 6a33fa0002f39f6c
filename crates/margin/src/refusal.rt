/// A keeper's refusal. It has no number: whoever calls a keeper tests its own grounds first and answers with those.
#[derive(Clone, Copy, PartialEq, Eq, Debug)]
pub struct KeeperRefusal;
