// How many nodes a hierarchy has (document 01, item 5).
ghost use Rattle.std.specs.Prelude.{◌≡◌};
ghost use Rattle.rules.specs.Nodes.{node_count};

/// N(n), the number of nodes of the hierarchy over n edges, for any n. It goes level by level: the parts of one level differ by at
/// most one edge.
pub fn node_count(n: usize) -> usize
    ensures { result ≡ node_count n }
{
    let mut above: usize = 0;
    let mut size = n;
    let mut lesser: usize = 1;
    let mut greater: usize = 0;
    while 8 < size {
        above += lesser + greater;
        if size % 2 == 0 {
            lesser = 2 * lesser + greater;
        } else {
            greater = lesser + 2 * greater;
        }
        size /= 2;
    }
    if size == 8 {
        return above + lesser + 3 * greater;
    }
    above + lesser + greater
}
