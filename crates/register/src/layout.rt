// Where the parts of an image stand, each by one function; specs/Layout.antt has the same for contracts and proofs.
ghost use Rattle.std.specs.Prelude.{◌≡◌, ◌≤◌, ◌<◌};
ghost use Rattle.meaning.specs.Bounds.{most_items, most_links};
ghost use Rattle.register.specs.Layout.{names_at, count_at, link_place, image_length, body_length, cut_names};

// The names of an item.
pub fn names_at(item: usize) -> usize
    requires { item ≤ most_items }
    ensures { result ≡ names_at item }
{
    5 + 8 * item
}

// The link count, behind so many items.
pub fn count_at(items: usize) -> usize
    requires { items ≤ most_items }
    ensures { result ≡ count_at items }
{
    names_at(items)
}

// The k-th link.
pub fn link_at(items: usize, k: usize) -> usize
    requires { (items ≤ most_items) × (k ≤ most_links) }
    ensures { result ≡ link_place items k }
{
    count_at(items) + 2 + 5 * k
}

// How long an image of so many items and links is.
pub fn image_len(items: usize, links: usize) -> usize
    requires { (items ≤ most_items) × (links ≤ most_links) }
    ensures { result ≡ image_length items links }
{
    link_at(items, links)
}

// The length that its head tells.
pub fn body_len(items: usize, links: usize) -> usize
    requires { (items ≤ most_items) × (links ≤ most_links) }
    ensures { result ≡ body_length items links }
{
    image_len(items, links) - 3
}

// The names of the first item that does not fit before an end.
pub fn cut_names(end: usize) -> usize
    requires { 5 ≤ end }
    ensures { result ≡ cut_names end }
{
    5 + (end - 5) / 8 * 8
}
