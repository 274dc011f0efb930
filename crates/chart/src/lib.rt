// A day as a picture (SVG), put on a page a part at a time: frame::head, frame::grid, bars::bar for each interval, legend::legend, frame::end, in this order. The
// picture is whole in itself: it names no font, script or style outside it.
//
// The NMI, the suffix and the unit are put as they are: in an accepted file they are letters and digits, none of which means anything in XML.
#![tactic(auto)]

pub mod bars;
pub mod frame;
pub mod legend;
pub mod parts;
