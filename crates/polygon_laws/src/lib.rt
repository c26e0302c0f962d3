// Laws of polygons: bytes, floats, bends, and parts of a buffer laid down one after the other.
#![tactic(auto)]
