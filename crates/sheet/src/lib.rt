// What the sheet of polygons says of a line of its input. The definitions stand in specs/.
#![tactic(auto)]

// Where a sheet stands: the next byte belongs to this line, and begins it or goes on in it. Before anything is written that is
// line 0, the header.
#[derive(Clone, Copy)]
pub struct Margin {
    pub line: usize,
    pub begins: bool,
}

// The names of the columns.
pub const HEADER: [u8; 58] = *b"id,refusal,place,verdict,steps,nodes,corners,j,k,area,wkb\n";
