//! What holds of the search under every schedule. The functions do nothing: their contracts are laws.

ghost use Rattle.bhs_protocols_triangle.specs.Triangle.{ThreeMovesAreMade, TriangleIsSolved};

/// Two agents solve each network of a file that has three nodes with two links each, under every schedule.
pub fn the_triangle_is_solved()
    ensures { TriangleIsSolved }
{}

/// One schedule, worked out: three moves are made, and one agent is lost.
pub fn worked_examples()
    ensures { ThreeMovesAreMade }
{}
