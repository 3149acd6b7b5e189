//! What the body of a change says of it. These functions do nothing: each stands for its law.
ghost use Rattle.body_codec.specs.Laws.{OneBody, OneChange, BodySize};

/// A change has one body.
pub fn one_body_law()
    ensures { OneBody }
{}

/// A body is that of one change.
pub fn one_change_law()
    ensures { OneChange }
{}

/// How long a body is at most, by what its terms ask for.
pub fn body_size_law()
    ensures { BodySize }
{}
