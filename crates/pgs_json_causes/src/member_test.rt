/// What is tested of the members of an operation, in this order.
#[derive(Clone, Copy)]
pub enum MemberTest {
    /// Ids are ids.
    Ids,
    /// Names are texts, and so are labels.
    Texts,
    /// Texts that have to be names are names, and so are the names of properties.
    Names,
    /// Labels are a list, and properties an object.
    Parts,
    /// Values are values of a property.
    Values,
}
