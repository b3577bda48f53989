//! What the help of each command says after its arguments.

// Of the program without a command.
pub(crate) const WITHOUT_COMMAND: &str = "\
Without a command it reads a puzzle, a list and a certificate from standard input, one after the other, and \
checks them. check, explain, expand, page and count read the three from there too where no file is named. \
One document that a command reads may be named -, which is standard input; ./- is a file of that name.

Exit status:
  0  done; for a check, the list is complete
  1  the certificate does not show that the list is complete
  2  anything else; standard error says what
  3  find, generate, solve and count: it gave up, or the puzzle is too large; standard error says which

Example:
  cat puzzle list certificate | edgematch";

pub(crate) const CHECK: &str = "\
Prints the answer in one line: complete, or refused and why. Where the list is complete, a second line on a \
terminal says how many arrangements are listed, and whether there are others, which are images of these.

The answer is the same for any number of workers and forks. With --workers all there are as many workers as \
the program may use processors, at most 64. With --progress it says how far it is while it runs; this doesn't \
change the answer.

Without files it reads the puzzle, the list and the certificate from standard input, one after the other. A \
file that is named - is standard input.

Exit status:
  0  the list is complete
  1  the certificate does not show that the list is complete
  2  anything else; standard error says what

Example:
  edgematch check puzzle list certificate --workers all";

pub(crate) const SOLVE: &str = "\
Writes two files, which check reads: LIST, the puzzle's arrangements, and CERTIFICATE, which shows that there \
is no other. Prints how many arrangements were found, how many lemmas the certificate has (the numbered \
claims that it is made of), a line for each worker with the lemmas that it took, even if it took none, and \
the first arrangement. With --progress it says how far it is while it runs.

The two are made beside their names and renamed once both are written. So after any fault until then, gave up \
included, the files that were there before are as they were. Links are followed, modes are kept, and devices \
and pipes are written directly. So is a file that is already open: one that a standard stream has open, or \
one that a name like /dev/stdout or /dev/fd/3 leads to. Where another run put its file under one of the two \
names, that is said at the end. PUZZLE may be -, which is standard input. The other two may not be named -: \
./- is a file of that name.

With --check it checks what was found, as check does, before the two are renamed. Then the last line that it \
prints is complete N. If the check refuses the list, the solver has made a mistake: standard error has the \
line that check prints, and both files are as they were.

With a depth of 1 or more it first looks for symmetries of the puzzle. Up to 64 branches in the first levels, \
as many as the depth says, become lemmas. It cites these and their images instead of searching again: most \
puzzles with symmetries then take a fraction of the time. The list then leaves out most images of what it \
has, but not all, so don't publish its length: count says how many arrangements there are, and how many that \
are no images of each other. With --symmetries board these are counted up to turns and mirror images of the \
board and exchanges of equal tiles, otherwise up to exchanges of colours too. With a depth of 0 every \
arrangement is listed, and no symmetry is named.

With --depth auto the depth is 3 where the puzzle has symmetries and the search with depth 1 is guessed to \
have 10,000 nodes or more, and 1 otherwise. The workers share the branches. With --workers all there are as \
many as the program may use processors, at most 64.

The fuel is the most branch nodes that one lemma may have: cells or tiles at which it tries what fits. Where \
more than one worker searches, or the depth isn't 0, a lemma that is short of fuel makes further lemmas of \
its branches. If the fuel runs out even so, it says gave up, nothing is written, and both files are as they \
were. Then give more fuel, up to 1000000, or a greater depth, up to 3, or take a smaller puzzle. If it says \
too many arrangements, a greater depth may help too: it then lists fewer of those that are images of each \
other. If it says too many options, which show tells before, only a smaller puzzle helps.

Exit status:
  0  the list and the certificate are written; with --check the list is complete
  1  with --check: the certificate does not show that the list is complete
  2  anything else; standard error says what
  3  gave up, too many options, or too many arrangements; standard error says which

Example:
  edgematch solve puzzle list certificate --check --depth auto --workers all";

pub(crate) const FIND: &str = "\
Prints a list of at most K different arrangements of the puzzle; without --first, K is 1. show and draw read \
such a list. Where it has fewer than K, there is no other arrangement. That is proved of the program, but \
nothing that is printed shows it to others: solve writes a certificate.

With --orbits no arrangement of the list is an image of another. Where the list has fewer than K, every \
arrangement is an image of one of these. Images come of turns and mirror images of the board that are \
symmetries of the puzzle, and of exchanges of equal tiles; with --symmetries all they come of exchanges of \
colours too. So --orbits --first 2 says whether there is just one arrangement, up to turns and mirror images \
of the board: then the list has one. If it says too many expanded, one arrangement has over 1,000,000 images.

It searches at random. Where it has found nothing for a while, it begins anew and goes on longer. Each worker \
searches by itself, with a seed of its own: the first with that of --seed, each further one with the next \
number. The list of the one that is done first is printed. So with one worker a seed always gives the same \
list, and with several it may be another each time. With --workers all there are as many as the program may \
use processors, at most 64.

Exit status:
  0  the list is printed, also where it has no arrangement
  2  anything else; standard error says what
  3  too many options

Examples:
  edgematch find puzzle | edgematch draw puzzle - > picture.svg
  edgematch find puzzle --orbits --first 2";

pub(crate) const EXPAND: &str = "\
Prints the arrangements of the list and their images under the symmetries of the certificate. Where the list \
is refused, it prints the answer of check.

With --orbits it prints one arrangement of each orbit. An orbit is all arrangements that the symmetries take \
into each other. Of the list, in its order, it prints those that the symmetries take no earlier one to. How \
many there are is what count calls orbits.

Without files it reads the puzzle, the list and the certificate from standard input, one after the other. A \
file that is named - is standard input.

Exit status:
  0  every arrangement of the puzzle is printed, once; with --orbits one of each orbit
  1  the certificate does not show that the list is complete
  2  anything else; standard error says what

Example:
  edgematch expand puzzle list certificate";

pub(crate) const PAGE: &str = "\
Prints one HTML file that publishes the list, but only where the list is complete. Otherwise it prints the \
answer of check.

The page says how many arrangements there are, and has pictures of the first that are listed. It holds the \
three texts, each with its SHA-256, and a checker that runs in the reader's browser. That is a second \
opinion, which isn't proved. A text of more than 4 MiB (4,194,304 bytes) isn't in the page: publish its file \
beside the page, and the reader chooses it there.

--title gives the heading of the page, and --first how many of the listed arrangements a sheet shows. With 0 \
or 1 there is no sheet.

Without files it reads the puzzle, the list and the certificate from standard input, one after the other. A \
file that is named - is standard input.

Exit status:
  0  the list is complete, and the page is printed
  1  the certificate does not show that the list is complete
  2  anything else; standard error says what

Example:
  edgematch page puzzle list certificate --title \"Nine cards\" > page.html";

pub(crate) const EXPLAIN: &str = "\
Prints the answer of check. Where the list is refused, it also says why: a sentence, the line and the word \
with the fault, the board with what is placed there, and the pairs that fit where the certificate has a wrong \
number of them. Where a text has a fault, standard error says what has to be there, and what is there.

With a puzzle alone it says the same about the text of the puzzle. Where that has no fault, it prints puzzle: \
no fault, and below it what makes an arrangement impossible, as far as counts of colours and the border show \
this. Without files it reads the puzzle, the list and the certificate from standard input, one after the \
other. A file that is named - is standard input.

Exit status:
  0  the list is complete; or the puzzle alone has no fault
  1  the certificate does not show that the list is complete
  2  anything else; standard error says what

Examples:
  edgematch explain puzzle
  edgematch explain puzzle list certificate";

pub(crate) const COUNT: &str = "\
With a puzzle alone it searches, and prints how many arrangements the puzzle has, in a line arrangements N. \
It writes nothing of what it finds, so the way to check the number is to run it again; a list with its \
certificate can be checked.

With a list and a certificate it checks these, and prints four lines. arrangements N says how many the puzzle \
has. pictures P counts arrangements that show the same at each cell once: only equal tiles are exchanged in \
them. orbits K counts arrangements that the symmetries of the certificate take into each other once. \
symmetries S says how many symmetries the certificate names. Where the list is refused, it prints the answer \
of check.

With --most M it prints arrangements more than M as soon as it has found more. Whether there is just one, up \
to turning the board, find --orbits --first 2 says.

With --part K/N it counts in part K of N of the search, and prints three lines. puzzle DIGEST has the SHA-256 \
of the puzzle's file. split BRANCHES HASH has the number of branches into which the search was split, and a \
hash of them all. part K/N arrangements M has the number that it counted. Over all N parts of one puzzle and \
one split, these numbers add up to how many arrangements the puzzle has. edgematch total adds them up, and \
refuses lines that don't go together. With --part A-B/N it counts in parts A to B, over one split, and prints \
the line of each at the end.

Without files it reads the puzzle, the list and the certificate from standard input, one after the other. A \
file that is named - is standard input.

With --progress a search says while it runs how many of the subtrees are done, how many arrangements they \
have, and about how long the others will take. With --workers all there are as many workers as the program \
may use processors, at most 64. Where a list is checked, --progress and --workers change nothing.

Exit status:
  0  the arrangements are counted, or there are more than M
  1  the certificate does not show that the list is complete
  2  anything else; standard error says what
  3  too many options, or too many arrangements to count, 2^64 or more; standard error says which

Examples:
  edgematch count puzzle --workers all
  edgematch count puzzle --part 1-8/64
  edgematch count puzzle list certificate";

pub(crate) const TOTAL: &str = "\
Reads the lines that count --part printed for all parts of one search, in any order, and prints their sum: \
arrangements N.

The lines have to be of one puzzle and of one split, with at least one line for each part. A part may have \
several lines if they all have the same number; it counts once. Otherwise standard error names the first line \
that is wrong, or the first part that is missing.

The files are read one after the other, as if they were joined. Where there are several files and a line is \
wrong, the line below the fault says in which file it is. - alone is standard input.

Exit status:
  0  the sum is printed
  2  anything else; standard error says what

Example:
  edgematch total part.*";

pub(crate) const GENERATE: &str = "\
Prints the text of a puzzle that has an arrangement. It draws one at random, with Q colours, and cuts it into \
tiles. Then it shuffles the tiles and turns each at random. One seed always gives the same puzzle.

The board is rect WIDTH HEIGHT, triangle SIZE or hexagon SIZE, and has at most 100 cells. With --like PUZZLE \
in its place the board, which may be a shape, the border, turns and mates are those of that puzzle. Only the \
tiles are new. PUZZLE may be -, which is standard input.

With --border frame, the default, outer sides show colour 0, inner sides never do, and the puzzle asks for \
colour 0 all round. With one, inner sides may show colour 0 too. With free, outer sides show any colours, and \
nothing is asked of them. With each, they show any colours, and the puzzle asks each side for its own.

With --mates colours meet in pairs: 0 and 1, 2 and 3, and so on. With --border frame or one, colour 0 is its \
own mate, and the pairs are 1 and 2, 3 and 4, and so on.

With --unique the puzzle has one arrangement, and no other but those that come of it by turning the whole \
board: there are at most 4 on a square, 2 on another rectangle, 3 on a triangle and 6 on a hexagon. With \
--turns no, --border each or --clues there is just one. It counts the arrangements of each puzzle that it \
draws, and draws another where there are more. After --tries puzzles that won't do it says gave up. Then more \
colours help, or clues, or another seed. On a large board a count may take long: more colours make it shorter.

With --clues K it adds clues for K cells of the board: each asks for all that the drawn arrangement shows \
there. It takes the cells whose clues leave the fewest other arrangements. So a puzzle of few colours can have \
just one.

With --hardest T it prints, of T puzzles that have just one arrangement, the one with the most work. Work is a \
guess of how many steps a plain search takes; show prints it too. --easiest takes the one with the least.

Exit status:
  0  the puzzle is printed
  2  anything else; standard error says what
  3  gave up, or too many options; standard error says which

Examples:
  edgematch generate rect 6 6 --colours 8 --different --unique --seed 1 > puzzle
  edgematch generate --like heart --colours 8 --unique --seed 1 > puzzle";

pub(crate) const SHOW: &str = "\
Draws the board with the numbers of its cells and the colours that the border and clues ask for. Says how \
many cells, tiles and colours there are, where each colour occurs, whether tiles may be turned, which colours \
are mates (colours that go together), and how large the puzzle is for solve: how many options it has, each a \
tile at a cell as the border and clues allow, how many items these have, and, as work, how many nodes a plain \
search for all arrangements is guessed to meet.

With a list it draws arrangement N of the list instead. Where the list has no such arrangement, or it is not \
one of the puzzle's, standard error says so. One of the files may be -, standard input.

Exit status:
  0  the board is drawn, or the arrangement
  2  anything else; standard error says what

Example:
  edgematch show puzzle list 0";

pub(crate) const DRAW: &str = "\
Prints one SVG document. With a list it draws arrangement N of the list, and with --first K a sheet of the K \
arrangements from N on; where the list has fewer from N on, it draws these. Without a list it draws the empty \
board with the colours that the border and clues ask for, and each tile below. Where tiles may not be turned, \
each has an arrow that points north.

Where the list has no arrangement N, or one that is to be drawn is not one of the puzzle's, standard error \
says so, and nothing is printed. Without a list --first changes nothing, and --numbers only what --cut prints. \
One of the files may be -, standard input.

With --cut it prints pages in place of a picture: one HTML document of A4 pages, to be opened with a browser, \
printed at 100 % and cut up. On them are the tiles in the puzzle's order, unturned and apart from each other. \
--size MM says how many millimetres the side of a tile is long. With --numbers each tile has its number, from 0. \
With a list a last page has arrangement N, which is the solution where the puzzle has just one.

With --all CERTIFICATE it first checks the list with this certificate. Where the list is complete, it draws \
of all arrangements of the puzzle, as expand prints them: first those of the list, then their images. Where \
the list is refused, it prints the answer of check.

Exit status:
  0  the picture is printed, or the pages
  1  with --all: the certificate does not show that the list is complete
  2  anything else; standard error says what

Examples:
  edgematch draw puzzle list 0 --numbers > picture.svg
  edgematch draw puzzle --cut --size 50 > tiles.html
  edgematch draw puzzle list --all certificate --first 100 > sheet.svg";

pub(crate) const TILES: &str = "\
Prints a line for each tile: its word, which has a character for each side. With --lines it prints the line \
that a puzzle has for the tile: tile WORD. There may be at most 100 tiles.

Example:
  edgematch tiles 4 3";

pub(crate) const SYMMETRIES: &str = "\
Prints the symmetries of the puzzle that solve would name, as a certificate has them: a line for each. The \
file may be -, standard input.

Exit status:
  0  the lines are printed
  2  anything else; standard error says what

Example:
  edgematch symmetries puzzle";
