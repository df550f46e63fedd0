//! What a port knows: the row of its shard in the exchange rule.

// What the view of a port notes. No value of these types is made.
use std::collections::LinkedList;

/// What a port knows of a source.
pub struct Link {
    /// The height of the last list that it claimed.
    pub claimed: u64,
    /// The source's number as it was loaded last.
    pub seen: u64,
    /// Whether the source's mark of abandonment was loaded with it.
    pub marked: bool,
    /// How often the source's published word was loaded.
    pub loads: u64,
    /// How many of the source's lists it took and gave the place back. The taken word of the link shows it.
    pub given: u64,
}

/// What a port knows of a destination.
pub struct Room {
    /// How many of the port's lists it took, as the taken word of the link was loaded last.
    pub taken: u64,
    /// How often that word was loaded.
    pub loads: u64,
}

/// The row of a shard.
pub struct Note<P> {
    /// The run that the exchange was made for.
    pub run: P,
    /// The number of the shard.
    pub shard: u64,
    /// How many ports were made, in the view of port 0.
    pub made: u64,
    /// How many heights the shard has published.
    pub number: u64,
    /// Whether the shard has abandoned the run.
    pub abandoned: bool,
    /// To how many destinations, from the first on, the place for the next list is out with the port.
    pub out: u64,
    /// A link for each source, in order of number.
    pub links: LinkedList<Link>,
    /// A room for each destination, in order of number.
    pub rooms: LinkedList<Room>,
}
