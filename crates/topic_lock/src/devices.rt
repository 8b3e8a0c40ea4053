use disk::Shelf;

/// The devices of a broker: the catalog's, and one for each topic by its number.
#[derive(Drop)]
pub struct Devices<S: Shelf + Drop> {
    pub catalog: S,
    pub topics: Vec<S>,
}
