// Laws of polygons that are read: numbers out of bytes, coordinates out of floats, rings, and the way back from a polygon that
// was written.
#![tactic(auto)]
