// Frames were worked out by hand from the protocol's published description. Each test ends by itself, since its client makes as many
// connections as the server takes.
mod faults;
mod limits;
